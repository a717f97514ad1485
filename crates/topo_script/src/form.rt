//! What can be read from a JSON value.

ghost use Rattle.std.specs.Prelude.{◌≡◌, ◌+◌, ◌==◌};
ghost use Rattle.topo_script.specs.declared.fault.ScriptFault.TheVariants.{BadShape};
ghost use Rattle.serde_json.specs.View.{view, items_view, members_view};
ghost use Rattle.topo_script.specs.Reads.{Gives, passes, read_map, number_below, number_form};
ghost use Rattle.topo_script.specs.Reads.{is_text, element_count, items_from, list_form};
ghost use Rattle.topo_script.specs.Reads.{element, has_key, is_known, all_known, is_missing};
ghost use Rattle.topo_script.specs.Reads.{all_there, has_keys, member_form, member_or, only_form};
ghost use Rattle.topo_script.specs.Reads.{two_members};
ghost use Rattle.topo_script.specs.Reads.{three_members, three_elements, value_of, and_then};
ghost use Rattle.topo_script.specs.Paths.{whole};

use crate::fault::ScriptFault;
use crate::keys::FormKey;
use crate::path::{JsonPath, Key};
use serde_json::{Map, Value};
use std::alloc::Global;
use topo_core::ids::{EdgeId, VertexId};
use topo_core::listed::Listed;

/// A type that can be read from a JSON value. Its `form` says what a value is read as, or which
/// fault is its first.
pub trait Form: Drop {
    ghost use Rattle.serde_json.specs.Data.{Data};
    ghost use Rattle.topo_script.specs.declared.path.JsonPath.{JsonPath};
    ghost use Rattle.topo_script.specs.Reads.{Read};

    ghost form: { JsonPath → Data → Read Self };

    /// What the value at a path is read as.
    fn read(alloc: Global, path: JsonPath, value: &Value) -> Result<Self, ScriptFault>
        ensures { Gives result (form path (view value.now)) };
}

/// A whole number of at most `greatest`.
#[tactic(auto, unfolding(crate::specs::Reads::number_below, crate::specs::Reads::and_then))]
pub fn read_number(greatest: u64, path: JsonPath, value: &Value) -> Result<u64, ScriptFault>
    ensures { result ≡ number_below (greatest + 1) path (view value.now) }
{
    if !value.is_number() {
        return Err(ScriptFault::BadShape(path));
    }
    match value.as_u64() {
        Some(n) if n <= greatest => Ok(n),
        _ => Err(ScriptFault::BadNumber(path)),
    }
}

impl Form for u32 {
    ghost form = { number_form };

    fn read(_alloc: Global, path: JsonPath, value: &Value) -> Result<Self, ScriptFault> {
        let number = read_number(u64::from(u32::MAX), path, value)?;
        Ok(number as u32)
    }
}

impl Form for EdgeId {
    ghost form = { number_form };

    fn read(alloc: Global, path: JsonPath, value: &Value) -> Result<Self, ScriptFault> {
        match u32::read(alloc, path, value) {
            Ok(number) => Ok(EdgeId::new(number)),
            Err(fault) => Err(fault),
        }
    }
}

impl Form for VertexId {
    ghost form = { number_form };

    fn read(alloc: Global, path: JsonPath, value: &Value) -> Result<Self, ScriptFault> {
        match u32::read(alloc, path, value) {
            Ok(number) => Ok(VertexId::new(number)),
            Err(fault) => Err(fault),
        }
    }
}

impl<T: Form> Form for Listed<T> {
    ghost form = { list_form T.form };

    fn read(alloc: Global, path: JsonPath, value: &Value) -> Result<Self, ScriptFault> {
        match value.as_array() {
            Some(items) => read_items(alloc, path, items.as_slice()),
            None => Err(ScriptFault::BadShape(path)),
        }
    }
}

/// What each element of an array is read as, up to the first fault.
pub fn read_items<T: Form>(
    alloc: Global,
    path: JsonPath,
    items: &[Value],
) -> Result<Listed<T>, ScriptFault>
    ensures { Gives result (items_from T.form path 0 (items_view items.now)) }
{
    let mut found = Vec::new(alloc);
    for (i, item) in items.iter().enumerate() {
        match T::read(alloc, path.element(i), item) {
            Ok(value) => if found.push(value).is_err() {
                return Err(ScriptFault::Memory);
            },
            Err(fault) => return Err(fault),
        }
    }
    Ok(Listed::from_vec(found))
}

/// What a member is read as.
pub fn read_member<T: Form>(
    alloc: Global,
    path: JsonPath,
    key: Key,
    value: &Value,
) -> Result<T, ScriptFault>
    ensures { Gives result (member_form T.form path key (view value.now)) }
{
    match value.get(key.name()) {
        Some(found) => T::read(alloc, path.member(key), found),
        None => Err(ScriptFault::BadShape(path.member(key))),
    }
}

/// What the one member of an object is read as, which has this key.
pub fn read_only_member<T: Form>(
    alloc: Global,
    path: JsonPath,
    key: Key,
    value: &Value,
) -> Result<T, ScriptFault>
    ensures { Gives result (only_form T.form path key (view value.now)) }
{
    check_keys(path, &[FormKey::Due(key)], value)?;
    read_member(alloc, path, key, value)
}

/// What two members are read as, one after the other.
pub fn read_two<A: Form, B: Form>(
    alloc: Global,
    path: JsonPath,
    first: Key,
    second: Key,
    value: &Value,
) -> Result<(A, B), ScriptFault>
    ensures { Gives result (two_members A.form B.form path first second (view value.now)) }
{
    let a = read_member(alloc, path, first, value)?;
    let b = read_member(alloc, path, second, value)?;
    Ok((a, b))
}

/// What three members are read as, one after the other.
pub fn read_three<A: Form, B: Form, C: Form>(
    alloc: Global,
    path: JsonPath,
    first: Key,
    second: Key,
    third: Key,
    value: &Value,
) -> Result<(A, B, C), ScriptFault>
    ensures { Gives result
        (three_members A.form B.form C.form path first second third (view value.now)) }
{
    let (a, b) = read_two(alloc, path, first, second, value)?;
    let c = read_member(alloc, path, third, value)?;
    Ok((a, b, c))
}

/// What a member is read as, or a default where it is missing.
pub fn read_member_or<T: Form>(
    alloc: Global,
    path: JsonPath,
    key: Key,
    value: &Value,
    default: T,
) -> Result<T, ScriptFault>
    ensures { Gives result (member_or default T.form path key (view value.now)) }
{
    if has_key(key, value) {
        return read_member(alloc, path, key, value);
    }
    Ok(default)
}

/// What an element is read as.
pub fn read_element<T: Form>(
    alloc: Global,
    path: JsonPath,
    i: usize,
    value: &Value,
) -> Result<T, ScriptFault>
    ensures { Gives result (element T.form path i (view value.now)) }
{
    match value.get(i) {
        Some(found) => T::read(alloc, path.element(i), found),
        None => Err(ScriptFault::BadShape(path)),
    }
}

/// What three elements are read as, the first of them at place `i`.
pub fn read_elements<A: Form, B: Form, C: Form>(
    alloc: Global,
    path: JsonPath,
    i: u32,
    value: &Value,
) -> Result<(A, B, C), ScriptFault>
    ensures { Gives result (three_elements A.form B.form C.form path i (view value.now)) }
{
    let i = i as usize;
    let a = read_element(alloc, path, i, value)?;
    let b = read_element(alloc, path, i + 1, value)?;
    let c = read_element(alloc, path, i + 2, value)?;
    Ok((a, b, c))
}

/// Whether a value is an object with this key.
pub fn has_key(key: Key, value: &Value) -> bool
    ensures { result ≡ has_key key (view value.now) }
{
    value.get(key.name()).is_some()
}

/// Whether a value is this text.
pub fn is_text(text: &str, value: &Value) -> bool
    ensures { result ≡ is_text text.now (view value.now) }
{
    match value.as_str() {
        Some(found) => found == text,
        None => false,
    }
}

/// How many elements an array has, and 0 for another value.
pub fn element_count(value: &Value) -> usize
    ensures { result ≡ element_count (view value.now) }
{
    match value.as_array() {
        Some(elements) => elements.len(),
        None => 0,
    }
}

/// Tests that a value is an array of so many elements.
pub fn check_count(path: JsonPath, count: usize, value: &Value) -> Result<(), ScriptFault>
    ensures { result ≡ passes (BadShape path) (element_count (view value.now) == count) }
{
    if element_count(value) == count {
        Ok(())
    } else {
        Err(ScriptFault::BadShape(path))
    }
}

/// Tests that a value is an object with all of these keys that are due, some of the others, and no
/// more.
#[tactic(auto, unfolding(crate::specs::Reads::has_keys, crate::specs::Reads::and_then))]
pub fn check_keys(path: JsonPath, keys: &[FormKey], value: &Value) -> Result<(), ScriptFault>
    ensures { result ≡ has_keys path keys.now (view value.now) }
{
    let Some(members) = value.as_object() else {
        return Err(ScriptFault::BadShape(path));
    };
    if !are_known(keys, members) {
        return Err(ScriptFault::BadShape(path));
    }
    check_due(path, keys, value)
}

/// Whether each member has one of the keys.
fn are_known(keys: &[FormKey], members: &Map<String, Value>) -> bool
    ensures { result ≡ all_known keys.now (members_view members.now.entries) }
{
    for (name, _member) in members.iter() {
        if !is_known(keys, name.as_str()) {
            return false;
        }
    }
    true
}

/// Whether one of the keys is written so.
fn is_known(keys: &[FormKey], name: &str) -> bool
    ensures { result ≡ is_known keys.now name.now }
{
    keys.iter().any(|known| name == known.key().name())
}

/// Whether a key is due and a value does not have it.
fn is_missing(known: FormKey, value: &Value) -> bool
    ensures { result ≡ is_missing known (view value.now) }
{
    match known {
        FormKey::Due(key) => !has_key(key, value),
        FormKey::Optional(_) => false,
    }
}

/// Tests that none of the keys is missing that are due.
fn check_due(path: JsonPath, keys: &[FormKey], value: &Value) -> Result<(), ScriptFault>
    ensures { result ≡ all_there path keys.now (view value.now) }
{
    for known in keys {
        if is_missing(*known, value) {
            return Err(ScriptFault::BadShape(path.member(known.key())));
        }
    }
    Ok(())
}

/// So many bytes the value of a text may take for each of its own.
const VALUE_BYTES: u64 = 40;

/// And so many more.
const SMALL_VALUE_BYTES: u64 = 16_777_216;

/// About so many bytes an object of a value takes, a list, and each further item of either.
const OBJECT_BYTES: u64 = 1_000;

const LIST_BYTES: u64 = 150;

const ITEM_BYTES: u64 = 36;

/// Whether the value of a text would take much more memory than the text: about so much as what
/// begins an object, a list or an item in it. It bounds memory alone: no contract rests on it.
fn takes_much(bytes: &[u8]) -> bool {
    let mut needed = 0u64;
    for byte in bytes {
        needed = needed.saturating_add(match *byte {
            b'{' => OBJECT_BYTES,
            b'[' => LIST_BYTES,
            b',' => ITEM_BYTES,
            _ => 0,
        });
    }
    let most = (bytes.len() as u64).saturating_mul(VALUE_BYTES);
    needed > most.saturating_add(SMALL_VALUE_BYTES)
}

/// The value that at most `limit` bytes spell. One that would take much more memory than they do
/// is answered as out of memory.
pub fn parse(alloc: Global, limit: usize, bytes: &[u8]) -> Result<Value, ScriptFault>
    ensures { Gives (read_map view result) (value_of limit bytes.now) }
{
    if bytes.len() > limit {
        return Err(ScriptFault::TooLong);
    }
    if takes_much(bytes) {
        return Err(ScriptFault::Memory);
    }
    match Value::from_slice(alloc, bytes) {
        Ok(value) => Ok(value),
        Err(e) => if e.is_memory() {
            Err(ScriptFault::Memory)
        } else {
            Err(ScriptFault::NotJson)
        },
    }
}

/// What the value of a text of at most `limit` bytes is read as.
pub fn read_value<T: Form>(alloc: Global, limit: usize, bytes: &[u8]) -> Result<T, ScriptFault>
    ensures { Gives result (and_then (value_of limit bytes.now) (T.form whole)) }
{
    let value = parse(alloc, limit, bytes)?;
    T::read(alloc, JsonPath::WHOLE, &value)
}
