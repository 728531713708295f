// The two steps that element filters are made of. Data and not closures, since contracts and laws speak of them.
#[derive(Clone, Copy)]
pub(crate) enum Step {
    Erode,
    Dilate,
}
