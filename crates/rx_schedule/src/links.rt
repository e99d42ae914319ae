/// Two records that name one book, of which no record between them names it; by their places, the earlier first.
#[derive(Clone, Copy)]
pub(crate) struct Link {
    pub from: usize,
    pub to: usize,
}
