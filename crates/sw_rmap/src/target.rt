//! Targets.
ghost use Rattle.std.specs.Prelude.{◌≡◌, ◌<◌, ◌≤◌, ◌-◌, true, if◌then◌else◌, Some, None, length, take, option_map, replicate, IfOk, OnErr};
ghost use Rattle.sw_rmap.specs.Config.{IsTargetConfig};
ghost use Rattle.sw_rmap.specs.Answers.{IsInWindow, answer, answer_to, body_len, found_by, is_success, memory_after};
ghost use Rattle.sw_rmap.specs.Replies.{is_answered, reply_of};

use crate::command::Command;
use crate::command_status::status;
use crate::config::TargetConfig;
use crate::reply::push_left_form;
use crate::status::Status;
use std::alloc::{AllocError, Global};
use std::marker::Model;
use sw_char::End;

/// An RMAP target (ECSS-E-ST-50-52C, write and read commands): its configuration, and what its window holds.
#[derive(Drop)]
pub struct Target {
    config: TargetConfig,
    memory: Vec<u8>,
}

impl Model for Target {
    ghost use Rattle.std.specs.Prelude.{◌≡◌, length};
    ghost use Rattle.sw_rmap.specs.Config.{IsTargetConfig};
    ghost use Rattle.sw_rmap.specs.Answers.{TargetView};

    ghost Value = { TargetView };

    ghost view = { λ t. record { config = t.config; memory = t.memory.items } };

    ghost invariant = { λ t. IsTargetConfig t.config × (length t.memory.items ≡ t.config.size) };
}

impl Target {
    /// A target whose window holds zeros.
    ///
    /// # Errors
    ///
    /// There is no memory for the window.
    pub fn new(alloc: Global, config: TargetConfig) -> Result<Target, AllocError>
        requires { IsTargetConfig config }
        ensures { IfOk result (λ t. t ≡ record { config = config; memory = replicate config.size 0 }) }
    {
        let memory = vec![in alloc; 0; config.size as usize]?;
        Ok(Target { config, memory })
    }

    /// The configuration.
    pub fn config(&self) -> TargetConfig
        ensures value { result ≡ self.now.config }
        ensures valid { IsTargetConfig self.now.config }
    {
        self.config
    }

    /// What the window holds, from its start on.
    pub fn memory(&self) -> &[u8]
        ensures value { result.now ≡ self.now.memory }
        ensures len { length result.now ≡ self.now.config.size }
    {
        self.memory.as_slice()
    }

    /// Takes a packet, and makes the reply to it if it gets one (ECSS-E-ST-50-52C, write and read
    /// commands).
    ///
    /// # Errors
    ///
    /// There is no memory for the reply: then nothing is stored.
    #[tactic(auto, unfolding(crate::specs::Answers::answer))]
    pub fn answer(
        &mut self,
        alloc: Global,
        bytes: &[u8],
        end: End,
    ) -> Result<Option<Vec<u8>>, AllocError>
        ensures answer { IfOk result (λ reply. (option_map (λ r. r.items) reply, self.new.memory) ≡ answer self.old.config self.old.memory bytes.now end) }
        ensures config { self.new.config ≡ self.old.config }
        ensures err { OnErr result (self.new.memory ≡ self.old.memory) }
    {
        let Some(command) = Command::read(bytes) else {
            return Ok(None);
        };
        let body = &bytes[16 + command.bits().reply_address_len()..];
        self.answer_to(alloc, &command, body, end)
    }

    fn answer_to(
        &mut self,
        alloc: Global,
        command: &Command,
        body: &[u8],
        end: End,
    ) -> Result<Option<Vec<u8>>, AllocError>
        ensures answer { IfOk result (λ reply. (option_map (λ r. r.items) reply, self.new.memory) ≡ answer_to self.old.config self.old.memory command.now body.now end) }
        ensures config { self.new.config ≡ self.old.config }
        ensures err { OnErr result (self.new.memory ≡ self.old.memory) }
    {
        let config = self.config;
        let status = status(config, command, body, end);
        let found = reply_data(config, &self.memory, command, status);
        let reply = reply_if_wanted(alloc, command, status, found)?;
        store_if_written(config, &mut self.memory, command, body, status);
        Ok(reply)
    }
}

/// The reply to the command, if it gets one, with the data that a read found.
#[tactic(auto, unfolding(crate::specs::Replies::reply_of))]
fn reply_if_wanted(
    alloc: Global,
    command: &Command,
    status: Status,
    found: &[u8],
) -> Result<Option<Vec<u8>>, AllocError>
    requires { length found.now < 16777216 }
    ensures { IfOk result (λ reply. option_map (λ r. r.items) reply ≡ (if is_answered command.now then Some (reply_of command.now status found.now) else None)) }
{
    if !command.is_answered() {
        return Ok(None);
    }
    let mut reply = Vec::from_slice(alloc, command.path())?;
    push_left_form(&mut reply, command, status, found)?;
    Ok(Some(reply))
}

/// Stores the data of a write that succeeds.
fn store_if_written(
    config: TargetConfig,
    memory: &mut [u8],
    command: &Command,
    body: &[u8],
    status: Status,
)
    requires memory { length memory.old ≡ config.size }
    requires within { is_success status ≡ true → IsInWindow config command.now }
    requires whole { is_success status ≡ true → length body.now ≡ body_len command.now }
    ensures { memory.new ≡ memory_after config command.now status body.now memory.old }
{
    if status.is_success() && command.bits().is_write() {
        let data = &body[..command.length() as usize];
        let start = offset(config, command);
        memory[start..start + data.len()].copy_from_slice(data);
    }
}

/// Where in the window the command begins.
fn offset(config: TargetConfig, command: &Command) -> usize
    requires { config.start ≤ command.now.address }
    ensures { result ≡ command.now.address - config.start }
{
    (command.address() - config.start) as usize
}

/// The data of the reply: what a read finds, and nothing else.
fn reply_data<'a>(
    config: TargetConfig,
    memory: &'a [u8],
    command: &Command,
    status: Status,
) -> &'a [u8]
    requires memory { length memory.now ≡ config.size }
    requires within { is_success status ≡ true → IsInWindow config command.now }
    ensures value { result.now ≡ found_by config command.now status memory.now }
    ensures few { length result.now < 16777216 }
{
    if !status.is_success() || command.bits().is_write() {
        return &[];
    }
    let at = offset(config, command);
    &memory[at..at + command.length() as usize]
}
