//! What is refused, as JSON.

use serde_json::{Map, Number, Value, push, put};
use std::alloc::{AllocError, Global};
use tool_checks::{Kind, Refusal};
use tool_texts::escaped;

/// A number, or null.
fn number_data(number: Option<usize>) -> Value {
    match number {
        Some(number) => Value::Number(Number::from(number)),
        None => Value::Null,
    }
}

/// A refusal as an object: its file, line, column, number and words. What it does not have is null.
fn refusal_data(alloc: Global, refusal: &Refusal) -> Result<Value, AllocError> {
    let mut map = Map::new(alloc);
    let file = escaped(alloc, refusal.path.as_bytes())?;
    put(&mut map, alloc, "file", Value::String(file))?;
    let line = refusal.place.map(|place| place.line);
    put(&mut map, alloc, "line", number_data(line))?;
    let column = refusal.place.map(|place| place.column);
    put(&mut map, alloc, "column", number_data(column))?;
    let number = match refusal.kind {
        Kind::Refused(number) => Some(usize::from(number)),
        Kind::Fault(_) | Kind::Note => None,
    };
    put(&mut map, alloc, "number", number_data(number))?;
    let words = String::from_str(alloc, refusal.words.as_str())?;
    put(&mut map, alloc, "words", Value::String(words))?;
    Ok(Value::Object(map))
}

/// What is refused, as an object with a list.
pub fn refusals_json(alloc: Global, refusals: &[Refusal]) -> Result<String, AllocError> {
    let mut list = Vec::new(alloc);
    for refusal in refusals {
        push(&mut list, refusal_data(alloc, refusal)?)?;
    }
    let mut map = Map::new(alloc);
    put(&mut map, alloc, "refused", Value::Array(list))?;
    Value::Object(map).to_string(alloc)
}
