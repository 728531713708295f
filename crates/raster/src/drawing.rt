// Pages of bytes, drawn pixel by pixel. Width and height are two numbers of 16 bits, since a page may be larger than any sheet; so a cast to 16 bits loses nothing.
ghost use Rattle.std.specs.Prelude.{◌≡◌, ℕ, ◌*◌, ◌^◌, ◌<◌, ◌≤◌, length, slice_index};
ghost use Rattle.raster.specs.Drawn.{room_answer, DrawnBy, RowsDrawn};
ghost use Rattle.refusal.specs.Answers.{told};

use refusal::Refusal;
use sheet::Frame;

// Gives each byte of row `y` a value of its pixel.
fn draw_row<F: Fn(u16, u16) -> u8>(value: &F, y: u16, row: &mut [u8])
    requires callable { F.IsAlwaysCallable value.now }
    requires few { length row.old < 2 ^ 16 }
    ensures { (x : ℕ) → x < length row.old → F.post value.now x y (slice_index row.new x) }
{
    // by number: beside an enumerate the compiler keeps the column a second time, which each pixel of a filter pays for; there are fewer than 2 ^ 16 columns, so no try_from
    for x in 0..row.len() as u16 {
        row[usize::from(x)] = value(x, y);
    }
}

fn draw_rows<F: Fn(u16, u16) -> u8>(width: usize, height: usize, value: &F, page: &mut [u8])
    requires callable { F.IsAlwaysCallable value.now }
    requires few { (width < 2 ^ 16) × (height < 2 ^ 16) }
    requires room { width * height ≤ length page.old }
    ensures { RowsDrawn (F.post value.now) width height page.old page.new }
{
    // by number: after chunks_mut a proof knows nothing of the page (tried)
    for y in 0..height {
        let from = y * width;
        let end = from + width;
        // there are fewer than 2 ^ 16 rows, so no try_from
        draw_row(value, y as u16, &mut page[from..end]);
    }
}

// The width and height of a sheet, which has 4,096 of each at the most.
pub fn sides(frame: Frame) -> (u16, u16)
    ensures { result ≡ (frame.width, frame.height) }
{
    (frame.width as u16, frame.height as u16)
}

// How many bytes a page takes, if there is room for them.
pub fn room(width: u16, height: u16, page: &[u8]) -> Result<usize, Refusal>
    ensures { told result ≡ room_answer width height (length page.now) }
{
    let n = usize::from(width) * usize::from(height);
    if page.len() < n {
        return Err(Refusal::ListTooShort);
    }
    Ok(n)
}

// Draws the values of all pixels into the page, row after row, and answers how many there are.
pub fn draw<F: Fn(u16, u16) -> u8>(
    width: u16,
    height: u16,
    value: F,
    page: &mut [u8],
) -> Result<usize, Refusal>
    requires { F.IsAlwaysCallable value }
    ensures { DrawnBy (F.post value) width height result page.old page.new }
{
    let bytes = room(width, height, page)?;
    draw_rows(usize::from(width), usize::from(height), &value, page);
    Ok(bytes)
}
