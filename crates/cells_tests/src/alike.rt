// Bytes compared, whether they are lent to be read or to be written.
pub(crate) fn alike(a: &[u8], b: &[u8]) -> bool {
    a == b
}
