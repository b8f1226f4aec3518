// The fields of a line's object that are lists. The answer is `None` without such a field, if it is
// no array, or if an element of it is no item of the list.
ghost use Rattle.std.specs.Prelude.{◌≡◌, IfOk, option_map, option_and_then, map, vec_items};
ghost use Rattle.serde_json.specs.Find.{as_array, get};
ghost use Rattle.serde_json.specs.View.{view, items_view};
ghost use Rattle.bm_lines.specs.Parser.Fields.{each, list_field};

use super::items::Item;
use serde_json::Value;
use std::alloc::{AllocError, Global};

/// The field of this name as a list of such items.
pub fn list_field<T: Item>(
    alloc: Global,
    value: &Value,
    name: &str,
) -> Result<Option<Vec<T>>, AllocError>
    ensures { IfOk result
        (λ o. option_map vec_items o ≡ list_field T.item_in name.now (view value.now)) }
{
    match array_field(value, name) {
        Some(values) => items_of(alloc, values.as_slice()),
        None => Ok(None),
    }
}

fn array_field<'v>(value: &'v Value, name: &str) -> Option<&'v Vec<Value>>
    ensures { option_map (λ v. items_view v.now.items) result
        ≡ option_and_then as_array (get name.now (view value.now)) }
{
    value.get(name).and_then(Value::as_array)
}

/// The items that these values represent, if each represents one.
fn items_of<T: Item>(alloc: Global, values: &[Value]) -> Result<Option<Vec<T>>, AllocError>
    ensures { IfOk result
        (λ o. option_map vec_items o ≡ each T.item_in (map view values.now)) }
{
    let mut items = Vec::new(alloc);
    for value in values {
        match T::from_value(value) {
            Some(item) => items.push(item)?,
            None => return Ok(None),
        }
    }
    Ok(Some(items))
}
