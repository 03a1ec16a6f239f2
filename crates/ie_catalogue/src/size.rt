// How long a value is, beside what its entry allows.
#[derive(Clone, Copy, PartialEq, Eq, Debug)]
pub enum Size {
    Short,
    Fitting,
    Long,
}
