/// What a step towards a row comes to. `T` is what is given of it: the row itself, or what a combination of rows offers.
#[derive(Drop)]
pub enum Step<T> {
    /// The next row.
    Row(T),
    /// No row yet; less is left to do.
    Working,
    /// No row is left.
    End,
}
