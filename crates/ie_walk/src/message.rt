// A message, and where its imperative part ends. Apart from the reader, since one reader reads many messages.

#[derive(Clone, Copy, PartialEq, Eq, Debug)]
pub struct Message<'m> {
    pub octets: &'m [u8],
    pub imperative_end: usize,
}
