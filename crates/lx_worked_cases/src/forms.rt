//! Texts of cases that differ in a few words: a form is put once for each row of a table.
//!
//! The fields of a row stand between `|`, and are counted from 0. In a form `<2>` stands for field 2, and `<2?text>` for this text
//! where field 2 is not empty. What a row does not have is empty.

use std::test::Fail;

fn field<'a>(row: &'a str, number: &str) -> &'a str {
    let mut left = number.parse::<u32>().unwrap_or(u32::MAX);
    for field in row.split('|') {
        if left == 0 {
            return field;
        }
        left = left.saturating_sub(1);
    }
    ""
}

/// What a mark stands for.
fn filled<'a>(mark: &'a str, row: &'a str) -> &'a str {
    match mark.split_once('?') {
        Some((number, text)) if !field(row, number).is_empty() => text,
        Some(_) => "",
        None => field(row, mark),
    }
}

/// Puts what a mark stands for, and the text behind it; the first piece of a form has no mark.
fn put_piece(text: &mut String, piece: &str, row: &str) -> Result<(), Fail> {
    match piece.split_once('>') {
        Some((mark, behind)) => {
            text.push_str(filled(mark, row))?;
            text.push_str(behind)?;
        }
        None => text.push_str(piece)?,
    }
    Ok(())
}

/// Puts a form for a row.
pub fn put_row(text: &mut String, form: &str, row: &str) -> Result<(), Fail> {
    for piece in form.split('<') {
        put_piece(text, piece, row)?;
    }
    Ok(())
}

/// Puts a form for each line of a table.
pub fn put_rows(text: &mut String, form: &str, rows: &str) -> Result<(), Fail> {
    for row in rows.lines() {
        put_row(text, form, row)?;
    }
    Ok(())
}
