//! Reading of one table, key by key.
ghost use Rattle.std.specs.Prelude.{◌≡◌, ◌≤◌, All, Err, IsTrue, IfOk, IfSome, option_map, map};
ghost use Rattle.std.specs.List.{list_all};
ghost use Rattle.toml.specs.Data.{get_member};
ghost use Rattle.toml.specs.View.{view, table_view};
ghost use Rattle.sw_text.specs.Gives.{Gives, each};
ghost use Rattle.sw_text.specs.Keys.{key_text};
ghost use Rattle.sw_text.specs.Names.{is_name_byte, is_name, name_at};
ghost use Rattle.sw_text.specs.Table.{is_known, only_known, absent, number_value, numbers_value, text_at, text_or_none, number_at, number_or, number_or_none, numbers_at, numbers_or_none, tables_or_none, table_or_none, flag_or_false};

use crate::fault::{FileFault, KeyFault, OrMemory, TextFault};
use crate::keys::{Key, Section};
use crate::names::Name;
use std::alloc::Global;
use toml::{Table, Value};

fn is_name_byte(byte: u8) -> bool
    ensures { result ≡ is_name_byte byte }
{
    matches!(byte, b'a'..=b'z' | b'A'..=b'Z' | b'0'..=b'9' | b'_' | b'-' | b'.')
}

fn is_all_name_bytes(text: &str) -> bool
    ensures { result ≡ list_all is_name_byte text.now }
{
    for byte in text.as_bytes() {
        if !is_name_byte(*byte) {
            return false;
        }
    }
    true
}

fn is_name(text: &str) -> bool
    ensures { result ≡ is_name text.now }
{
    1 <= text.len() && text.len() <= 32 && is_all_name_bytes(text)
}

/// Is one of the keys written so?
pub fn is_known(known: &[Key], name: &str) -> bool
    ensures { result ≡ is_known known.now name.now }
{
    for key in known {
        if key.text() == name {
            return true;
        }
    }
    false
}

/// A table, and where it stands.
///
/// Each reader answers the first fault of what it reads, in this order: the key is missing, the value has the wrong type,
/// the value is out of range.
#[derive(Clone, Copy)]
pub struct TableEntry<'a> {
    /// Where faults say that it stands.
    pub section: Section,
    /// The keys and values.
    pub table: &'a Table,
}

impl<'a> TableEntry<'a> {
    /// The fault at a key of this table.
    pub fn fault(&self, fault: KeyFault, key: Key) -> FileFault
        ensures { result ≡ OrMemory.Fault (TextFault.Key fault self.now.section key) }
    {
        OrMemory::Fault(TextFault::Key(fault, self.section, key))
    }

    /// Refuses a key that this table may not have.
    fn refuse(&self, alloc: Global, key: &str) -> Result<(), FileFault>
        ensures { Gives (λ x. x) result (Err (TextFault.UnknownKey self.now.section key.now)) }
    {
        let text = String::from_str(alloc, key)?;
        Err(FileFault::Fault(TextFault::UnknownKey(self.section, Name { text })))
    }

    /// Refuses a table with a key that it may not have.
    ///
    /// # Errors
    ///
    /// The table has such a key: the least of them by bytes. Or there is no memory for its name.
    pub fn only_known(&self, alloc: Global, known: &[Key]) -> Result<(), FileFault>
        ensures { Gives (λ x. x) result (only_known self.now.section known.now (table_view self.now.table.now)) }
    {
        for key in self.table.keys() {
            let name = key.as_str();
            if !is_known(known, name) {
                return self.refuse(alloc, name);
            }
        }
        Ok(())
    }

    /// Refuses a key that is known elsewhere in the table, but not here.
    ///
    /// # Errors
    ///
    /// Something stands at the key, or there is no memory for the key's name.
    pub fn refuse_known(&self, alloc: Global, key: Key) -> Result<(), FileFault>
        ensures { Gives (λ x. x) result (absent self.now.section key (table_view self.now.table.now)) }
    {
        match self.get(key) {
            None => Ok(()),
            Some(_) => self.refuse(alloc, key.text()),
        }
    }

    fn get(&self, key: Key) -> Option<&'a Value>
        ensures { option_map (λ v. view v.now) result ≡ get_member (key_text key) (table_view self.now.table.now) }
    {
        self.table.get(key.text())
    }

    fn number_value(&self, key: Key, low: u64, high: u64, value: &Value) -> Result<u64, FileFault>
        ensures gives { Gives (λ n. n) result (number_value self.now.section key low high (view value.now)) }
        ensures within { IfOk result (λ n. (low ≤ n) × (n ≤ high)) }
    {
        let Some(number) = value.as_integer() else {
            return Err(self.fault(KeyFault::WrongType, key));
        };
        match u64::try_from(number) {
            Ok(number) if low <= number && number <= high => Ok(number),
            _ => Err(self.fault(KeyFault::OutOfRange, key)),
        }
    }

    fn numbers_value(
        &self,
        alloc: Global,
        key: Key,
        high: u8,
        value: &Value,
    ) -> Result<Vec<u8>, FileFault>
        ensures gives { Gives (λ v. v.items) result (numbers_value self.now.section key high (view value.now)) }
        ensures within { IfOk result (λ v. All (λ n. n ≤ high) v.items) }
    {
        let Some(values) = value.as_array() else {
            return Err(self.fault(KeyFault::WrongType, key));
        };
        let mut numbers = Vec::new(alloc);
        for value in values {
            let number = self.number_value(key, 0, high as u64, value)?;
            numbers.push(number as u8)?;
        }
        Ok(numbers)
    }

    /// The text at a key that has to be there.
    ///
    /// # Errors
    ///
    /// The key is missing, or the value is no text.
    pub fn text(&self, key: Key) -> Result<&'a str, FileFault>
        ensures { Gives (λ s. s.now) result (text_at self.now.section key (table_view self.now.table.now)) }
    {
        match self.get(key) {
            Some(value) => match value.as_str() {
                Some(text) => Ok(text),
                None => Err(self.fault(KeyFault::WrongType, key)),
            },
            None => Err(self.fault(KeyFault::MissingKey, key)),
        }
    }

    /// The text at a key, if anything stands there.
    ///
    /// # Errors
    ///
    /// What stands there is no text.
    pub fn text_or_none(&self, key: Key) -> Result<Option<&'a str>, FileFault>
        ensures { Gives (λ o. option_map (λ s. s.now) o) result (text_or_none self.now.section key (table_view self.now.table.now)) }
    {
        let Some(value) = self.get(key) else {
            return Ok(None);
        };
        match value.as_str() {
            Some(text) => Ok(Some(text)),
            None => Err(self.fault(KeyFault::WrongType, key)),
        }
    }

    /// The number from `low` to `high` at a key that has to be there.
    ///
    /// # Errors
    ///
    /// The key is missing, or the value is no integer, or not from `low` to `high`.
    pub fn number(&self, key: Key, low: u64, high: u64) -> Result<u64, FileFault>
        ensures gives { Gives (λ n. n) result (number_at self.now.section key low high (table_view self.now.table.now)) }
        ensures within { IfOk result (λ n. (low ≤ n) × (n ≤ high)) }
    {
        let Some(value) = self.get(key) else {
            return Err(self.fault(KeyFault::MissingKey, key));
        };
        self.number_value(key, low, high, value)
    }

    /// The number from `low` to `high` at a key, or the default.
    ///
    /// # Errors
    ///
    /// What stands there is no integer, or not from `low` to `high`.
    pub fn number_or(&self, key: Key, low: u64, high: u64, default: u64) -> Result<u64, FileFault>
        requires low_default { low ≤ default }
        requires high_default { default ≤ high }
        ensures gives { Gives (λ n. n) result (number_or self.now.section key low high default (table_view self.now.table.now)) }
        ensures within { IfOk result (λ n. (low ≤ n) × (n ≤ high)) }
    {
        match self.get(key) {
            Some(value) => self.number_value(key, low, high, value),
            None => Ok(default),
        }
    }

    /// The number from `least` to `most` at a key, if anything stands there.
    ///
    /// # Errors
    ///
    /// What stands there is no integer, or not from `least` to `most`.
    pub fn number_or_none(&self, key: Key, least: u64, most: u64) -> Result<Option<u64>, FileFault>
        ensures gives { Gives (λ n. n) result (number_or_none self.now.section key least most (table_view self.now.table.now)) }
        ensures within { IfOk result (λ o. IfSome o (λ n. (least ≤ n) × (n ≤ most))) }
    {
        match self.get(key) {
            Some(value) => Ok(Some(self.number_value(key, least, most, value)?)),
            None => Ok(None),
        }
    }

    /// The numbers from 0 to `high` of a list that has to be there.
    ///
    /// # Errors
    ///
    /// The key is missing, the value is no list, or an item is no integer or not from 0 to `high`: the first of these. Or there
    /// is no memory for the numbers.
    pub fn numbers(&self, alloc: Global, key: Key, high: u8) -> Result<Vec<u8>, FileFault>
        ensures gives { Gives (λ v. v.items) result (numbers_at self.now.section key high (table_view self.now.table.now)) }
        ensures within { IfOk result (λ v. All (λ n. n ≤ high) v.items) }
    {
        let Some(value) = self.get(key) else {
            return Err(self.fault(KeyFault::MissingKey, key));
        };
        self.numbers_value(alloc, key, high, value)
    }

    /// The numbers from 0 to `high` of a list, none where there is no list.
    ///
    /// # Errors
    ///
    /// What stands there is no list, or an item is no integer or not from 0 to `high`: the first of these. Or there is no memory
    /// for the numbers.
    pub fn numbers_or_none(&self, alloc: Global, key: Key, high: u8) -> Result<Vec<u8>, FileFault>
        ensures gives { Gives (λ v. v.items) result (numbers_or_none self.now.section key high (table_view self.now.table.now)) }
        ensures within { IfOk result (λ v. All (λ n. n ≤ high) v.items) }
    {
        match self.get(key) {
            Some(value) => self.numbers_value(alloc, key, high, value),
            None => Ok(Vec::new(alloc)),
        }
    }

    /// The tables of a list, none where there is no list.
    ///
    /// # Errors
    ///
    /// What stands there is no list, or an item is no table, or there is no memory for the list.
    pub fn tables_or_none(&self, alloc: Global, key: Key) -> Result<Vec<&'a Table>, FileFault>
        ensures { Gives (λ v. map (λ t. table_view t.now) v.items) result (tables_or_none self.now.section key (table_view self.now.table.now)) }
    {
        let Some(value) = self.get(key) else {
            return Ok(Vec::new(alloc));
        };
        let Some(values) = value.as_array() else {
            return Err(self.fault(KeyFault::WrongType, key));
        };
        let mut tables = Vec::new(alloc);
        for value in values {
            let Some(table) = value.as_table() else {
                return Err(self.fault(KeyFault::WrongType, key));
            };
            tables.push(table)?;
        }
        Ok(tables)
    }

    /// The table at a key, if anything stands there.
    ///
    /// # Errors
    ///
    /// What stands there is no table.
    pub fn table_or_none(&self, key: Key) -> Result<Option<&'a Table>, FileFault>
        ensures { Gives (λ o. option_map (λ t. table_view t.now) o) result (table_or_none self.now.section key (table_view self.now.table.now)) }
    {
        let Some(value) = self.get(key) else {
            return Ok(None);
        };
        match value.as_table() {
            Some(table) => Ok(Some(table)),
            None => Err(self.fault(KeyFault::WrongType, key)),
        }
    }

    /// True or false at a key, and false where nothing stands there.
    ///
    /// # Errors
    ///
    /// What stands there is neither.
    pub fn flag_or_false(&self, key: Key) -> Result<bool, FileFault>
        ensures { Gives (λ b. b) result (flag_or_false self.now.section key (table_view self.now.table.now)) }
    {
        let Some(value) = self.get(key) else {
            return Ok(false);
        };
        match value.as_bool() {
            Some(flag) => Ok(flag),
            None => Err(self.fault(KeyFault::WrongType, key)),
        }
    }

    /// The entry's name: 1 to 32 ASCII letters, digits, `_`, `-` and `.`.
    ///
    /// # Errors
    ///
    /// The name is missing, or is no text, or is not so written.
    #[tactic(auto, unfolding(crate::specs::Names::name_at))]
    pub fn name(&self) -> Result<&'a str, FileFault>
        ensures gives { Gives (λ s. s.now) result (name_at self.now.section (table_view self.now.table.now)) }
        ensures shape { IfOk result (λ s. IsTrue (is_name s.now)) }
    {
        let name = self.text(Key::Name)?;
        if !is_name(name) {
            return Err(self.fault(KeyFault::OutOfRange, Key::Name));
        }
        Ok(name)
    }
}
