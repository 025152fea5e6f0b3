//! Files of JSON: the value that bytes are read as, and the parts of an object that have one shape.

ghost use Rattle.std.specs.Prelude.{◌≡◌, IfOk, map, option_map};
ghost use Rattle.serde_json.specs.View.{view};
ghost use Rattle.pay_link.specs.Json as file;

use serde_json::Value;
use std::alloc::{AllocError, Global};

// `serde_json` decides what JSON is. Of several members of one name the last counts. Nesting deeper
// than 127, a number beyond a float's range, a lone surrogate and a byte order mark are no JSON.
/// Returns the value that `bytes` are read as, or `None`.
// promise: files
pub fn value_in(alloc: Global, bytes: &[u8]) -> Result<Option<Value>, AllocError>
    ensures { IfOk result (λ found. option_map view found ≡ file.value_in bytes.now) }
{
    match Value::from_slice(alloc, bytes) {
        Ok(value) => Ok(Some(value)),
        Err(error) => {
            if error.is_memory() {
                Err(AllocError)
            } else {
                Ok(None)
            }
        }
    }
}

/// Returns the whole number that `value` has at `name`.
// promise: files
pub fn number_at(value: &Value, name: &str) -> Option<u64>
    ensures { result ≡ file.number_at name.now (view value.now) }
{
    value.get(name).and_then(Value::as_u64)
}

/// Returns the whole numbers of the list that `value` has at `name`.
// promise: files
pub fn numbers_at(alloc: Global, value: &Value, name: &str) -> Result<Option<Vec<u64>>, AllocError>
    ensures { IfOk result (λ found.
        option_map (λ numbers. numbers.items) found ≡ file.numbers_at name.now (view value.now)) }
{
    let Some(list) = value.get(name).and_then(Value::as_array) else {
        return Ok(None);
    };
    let mut numbers = Vec::new(alloc);
    for item in list {
        let Some(number) = item.as_u64() else {
            return Ok(None);
        };
        numbers.push(number)?;
    }
    Ok(Some(numbers))
}

/// Returns the texts of the list that `value` has at `name`.
// promise: files
pub(crate) fn texts_at<'a>(
    alloc: Global,
    value: &'a Value,
    name: &str,
) -> Result<Option<Vec<&'a str>>, AllocError>
    ensures { IfOk result (λ found.
        option_map (λ texts. map (λ text. text.now) texts.items) found
        ≡ file.texts_at name.now (view value.now)) }
{
    let Some(list) = value.get(name).and_then(Value::as_array) else {
        return Ok(None);
    };
    let mut texts = Vec::new(alloc);
    for item in list {
        let Some(text) = item.as_str() else {
            return Ok(None);
        };
        texts.push(text)?;
    }
    Ok(Some(texts))
}
