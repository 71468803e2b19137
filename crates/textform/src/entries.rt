// The first n entries of a table; none where it has fewer.

pub fn front<T>(table: &[T], n: usize) -> &[T] {
    table.get(..n).unwrap_or(&[])
}
