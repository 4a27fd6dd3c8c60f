//! Which status a command has.
ghost use Rattle.std.specs.Prelude.{◌≡◌, length};
ghost use Rattle.sw_rmap.specs.Config.{IsTargetConfig};
ghost use Rattle.sw_rmap.specs.Answers.{body_len, is_corrupt, is_error_end, is_refused, status_of};

use crate::checksum::crc;
use crate::command::Command;
use crate::config::TargetConfig;
use crate::status::Status;
use sw_char::End;

/// The status of the first case that is so.
#[tactic(auto, unfolding(crate::specs::Answers::status_of))]
pub(crate) fn status(config: TargetConfig, command: &Command, body: &[u8], end: End) -> Status
    requires { IsTargetConfig config }
    ensures { result ≡ status_of config command.now body.now end }
{
    if !command.bits().is_known() {
        Status::UnusedCode
    } else if command.key() != config.key {
        Status::InvalidKey
    } else if command.logical() != config.logical {
        Status::InvalidTarget
    } else if is_refused(config, command) {
        Status::NotAuthorised
    } else if is_error_end(end) {
        Status::Eep
    } else if body.len() < body_len(command) {
        Status::EarlyEop
    } else if body.len() > body_len(command) {
        Status::TooMuchData
    } else if is_corrupt(command, body) {
        Status::InvalidDataCrc
    } else {
        Status::Success
    }
}

fn is_refused(config: TargetConfig, command: &Command) -> bool
    requires { IsTargetConfig config }
    ensures { result ≡ is_refused config command.now }
{
    let bits = command.bits();
    let address = command.address();
    let length = command.length();
    bits.is_read_modify_write()
        || length > 1 && !bits.increments()
        || address < config.start
        || address + u64::from(length) > config.start + u64::from(config.size)
}

fn is_error_end(end: End) -> bool
    ensures { result ≡ is_error_end end }
{
    match end {
        End::Eop => false,
        End::Eep => true,
    }
}

/// How many bytes stand behind the header of a right command.
fn body_len(command: &Command) -> usize
    ensures { result ≡ body_len command.now }
{
    if command.bits().is_write() {
        command.length() as usize + 1
    } else {
        0
    }
}

/// Whether the data of a write do not agree with their code.
fn is_corrupt(command: &Command, body: &[u8]) -> bool
    requires { length body.now ≡ body_len command.now }
    ensures { result ≡ is_corrupt command.now body.now }
{
    if !command.bits().is_write() {
        return false;
    }
    let (data, code) = body.split_at(command.length() as usize);
    crc(data) != code[0]
}
