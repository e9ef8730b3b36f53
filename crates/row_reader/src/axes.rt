//! Rows that stand for many: a name in braces stands for each value of its axis.
//!
//! `{TYPE} = u8 ; u16` gives a name its values. `{TYPE MAX} = u8 , 255 ; u16 , 65535` gives names values together. A line
//! behind it with the same names adds to them. A row that has `{TYPE}` in it is asked with each of the values in its
//! place, those of the last axis that has the name.

use std::alloc::Global;
use std::io;

/// Names, and the values that they have together: each has one for each name.
#[derive(Drop)]
pub(crate) struct Axis<'a> {
    line: &'a str,
    names: Vec<&'a str>,
    values: Vec<Vec<&'a str>>,
}

impl<'a> Axis<'a> {
    /// The place of a name among the axis's.
    fn place(&self, name: &str) -> Option<usize> {
        for i in 0..self.names.len() {
            if self.names[i] == name {
                return Some(i);
            }
        }
        None
    }

    /// Whether a row has one of the names in braces.
    fn is_in(&self, row: &str) -> bool {
        for piece in row.split('{') {
            let (name, _) = piece.split_once('}').unwrap_or(("", piece));
            if self.place(name).is_some() {
                return true;
            }
        }
        false
    }

    /// Adds values: `u8 , 255 ; u16 , 65535`.
    fn add_values(&mut self, alloc: Global, values: &'a str) -> io::Result<()> {
        for value in values.split(" ; ") {
            self.values.push(value.split(" , ").collect(alloc)?)?;
        }
        Ok(())
    }
}

/// Whether a line gives values to names.
pub(crate) fn is_axis(line: &str) -> bool {
    line.starts_with('{')
}

/// An axis of names, without values.
fn axis_of<'a>(alloc: Global, line: &'a str) -> io::Result<Axis<'a>> {
    Ok(Axis {
        line,
        names: line.split_whitespace().collect(alloc)?,
        values: Vec::new(alloc),
    })
}

/// Adds what a line gives: values of the last axis, or a further axis.
pub(crate) fn read<'a>(alloc: Global, axes: &mut Vec<Axis<'a>>, line: &'a str) -> io::Result<()> {
    let (names, values) = line.split_once("} = ").unwrap_or((line, ""));
    let names = names.trim_matches('{');
    let is_new = match axes.last() {
        Some(axis) => axis.line != names,
        None => true,
    };
    if is_new {
        axes.push(axis_of(alloc, names)?)?;
    }
    match axes.last_mut() {
        Some(axis) => axis.add_values(alloc, values),
        None => Ok(()),
    }
}

/// The last axis that a row has a name of.
pub(crate) fn axis_in<'b, 'a>(axes: &'b [Axis<'a>], row: &str) -> Option<&'b Axis<'a>> {
    let mut found = None;
    for axis in axes {
        if axis.is_in(row) {
            found = Some(axis);
        }
    }
    found
}

/// Adds a piece of a row that stands behind an opening brace: the value of its name, where the axis has it.
fn push_piece(row: &mut String, axis: &Axis<'_>, value: &[&str], piece: &str) -> io::Result<()> {
    let (name, behind) = piece.split_once('}').unwrap_or(("", piece));
    match axis.place(name) {
        Some(place) => {
            row.push_str(value.get(place).copied().unwrap_or(""))?;
            row.push_str(behind)?;
        }
        None => {
            row.push_str("{")?;
            row.push_str(piece)?;
        }
    }
    Ok(())
}

/// A row with a value of an axis in the places of its names.
fn replaced(alloc: Global, row: &str, axis: &Axis<'_>, value: &[&str]) -> io::Result<String> {
    let (first, rest) = row.split_once('{').unwrap_or((row, ""));
    let mut text = String::from_str(alloc, first)?;
    for piece in rest.split('{') {
        push_piece(&mut text, axis, value, piece)?;
    }
    Ok(text)
}

/// Adds a row once for each value of an axis.
pub(crate) fn push_each(
    alloc: Global,
    rows: &mut Vec<String>,
    row: &str,
    axis: &Axis<'_>,
) -> io::Result<()> {
    for value in &axis.values {
        rows.push(replaced(alloc, row, axis, value)?)?;
    }
    Ok(())
}
