//! What is asked for, in words.

/// What is done at the address.
#[derive(Clone, Copy)]
pub enum Access<'a> {
    /// Reads so many bytes: 0 to 16777215, decimal, or hexadecimal behind `0x`.
    Read { length: &'a str },
    /// Writes these bytes, 1 to 4,096 as hexadecimal pairs; with a reply or without one.
    Write { data: &'a str, acknowledged: bool },
}

/// The command that is asked for. Numbers are decimal, or hexadecimal behind `0x`.
#[derive(Clone, Copy)]
pub struct Request<'a> {
    /// The name of a declared flow.
    pub flow: &'a str,
    /// What the command does there.
    pub access: Access<'a>,
    /// The first address: 0 to 1099511627775.
    pub address: &'a str,
    /// The transaction identifier, 0 to 65535; 0 where none is given.
    pub transaction: Option<&'a str>,
}
