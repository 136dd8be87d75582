//! Tables of words.

ghost use Rattle.std.specs.Prelude.{◌≡◌, bytes_eq, find, map};
ghost use Rattle.std.specs.Option.{option_map};
ghost use Rattle.std.specs.Map.{lookup};

/// What the first row of a text says.
fn first_row<T: Copy>(table: &[(&[u8], T)], text: &[u8]) -> Option<T>
    ensures { result ≡ option_map (λ row. row.1) (find (λ row. bytes_eq text.now row.0.now) table.now) }
{
    let row = table.iter().find(|row| text == row.0)?;
    Some(row.1)
}

/// What a table says of a text, or none where it does not stand there.
pub fn found<T: Copy>(table: &[(&[u8], T)], text: &[u8]) -> Option<T>
    ensures { result ≡ lookup (bytes_eq text.now) (map (λ row. (row.0.now, row.1)) table.now) }
{
    first_row(table, text)
}
