ghost use Rattle.std.specs.Prelude.{◌≡◌, ◌≢◌, ◌<◌, ◌≤◌, ◌^◌, ◌↔◌, ℕ, IfOk, IfErr, IsTrue, MatchOption};
ghost use Rattle.braid_ids.specs.Agents.{IsAgent, IsAgentByte, IsAgentFault, agent_name};

use crate::id::Id;
use crate::memory::Memory;
use crate::readers::{after, read_decimal};
use itoa::Buffer;
use std::alloc::Global;
use std::marker::Model;

const LONGEST: usize = 32;

/// Who makes versions: 1 to 32 characters of `a` to `z` and `0` to `9`, but not the word `plain`.
///
/// The identifiers of an agent's versions are its characters, `-` and a number from 1.
#[derive(Debug, Drop)]
pub struct Agent {
    bytes: Vec<u8>,
}

impl Model for Agent {
    ghost use Rattle.std.specs.Prelude.{List, ℕ};
    ghost use Rattle.braid_ids.specs.Agents.{IsAgent};

    ghost Value = { List ℕ };

    ghost view = { λ agent. agent.bytes.items };

    ghost invariant = { λ agent. IsAgent agent.bytes.items };
}

/// Why bytes are no agent: the first of these that holds, in this order.
#[derive(Clone, Copy, Debug, PartialEq, Eq)]
pub enum AgentFault {
    /// There are no bytes.
    Empty,
    /// There are more than 32 bytes: `len` of them.
    TooLong { len: u64 },
    /// The byte at place `at`, counted from 0, is the first that is not one of `a` to `z` and `0` to `9`.
    BadByte { at: u64, byte: u8 },
    /// The bytes are the word `plain`, which is kept for versions without an agent.
    Reserved,
    /// There was no memory for a copy.
    Memory,
}

/// Whether an agent may have this byte.
fn is_agent_byte(byte: u8) -> bool
    ensures { IsTrue result ↔ IsAgentByte byte }
{
    byte.is_ascii_lowercase() || byte.is_ascii_digit()
}

impl Agent {
    /// Reads an agent from all of the bytes, and keeps a copy of them.
    ///
    /// Errors: the first of `AgentFault` that holds of the bytes, or `Memory`. Nothing is kept then.
    pub fn read(alloc: Global, bytes: &[u8]) -> Result<Agent, AgentFault>
        ensures ok { IfOk result (λ agent. (agent ≡ bytes.now) × IsAgent bytes.now) }
        ensures fault { IfErr result (λ fault. IsAgentFault bytes.now fault) }
    {
        if bytes.is_empty() {
            return Err(AgentFault::Empty);
        }
        if bytes.len() > LONGEST {
            return Err(AgentFault::TooLong {
                len: bytes.len() as u64,
            });
        }
        for (at, byte) in bytes.iter().enumerate() {
            if !is_agent_byte(*byte) {
                return Err(AgentFault::BadByte {
                    at: at as u64,
                    byte: *byte,
                });
            }
        }
        if bytes == b"plain".as_slice() {
            return Err(AgentFault::Reserved);
        }
        match Vec::from_slice(alloc, bytes) {
            Ok(bytes) => Ok(Agent { bytes }),
            Err(_) => Err(AgentFault::Memory),
        }
    }

    /// The agent's characters, lent as bytes. It takes no memory.
    pub fn bytes(&self) -> &[u8]
        ensures value { result.now ≡ self.now }
        ensures valid { IsAgent self.now }
    {
        self.bytes.as_slice()
    }

    /// The same agent once more.
    ///
    /// Errors: `Memory` where there was none for the copy.
    pub fn copy(&self, alloc: Global) -> Result<Agent, Memory>
        ensures ok { IfOk result (λ agent. agent ≡ self.now) }
    {
        let bytes = Vec::from_slice(alloc, self.bytes.as_slice())?;
        Ok(Agent { bytes })
    }

    /// The identifier of the agent's version number `k`: its characters, `-` and `k` in decimal. `k` is at least 1.
    ///
    /// Errors: `Memory` where there was none for the identifier.
    pub fn name(&self, alloc: Global, k: u64) -> Result<Id, Memory>
        requires { 1 ≤ k }
        ensures ok { IfOk result (λ id. id ≡ agent_name self.now k) }
    {
        let mut bytes = Vec::from_slice(alloc, self.bytes())?;
        bytes.push(b'-')?;
        bytes.extend_from_slice(Buffer::new().format(k).as_bytes())?;
        Id::from_bytes(alloc, &bytes)
    }

    /// The number of the version whose identifier this is, where it is one of the agent's: from 1, and without
    /// leading zeros. It takes no memory.
    pub fn number(&self, id: &Id) -> Option<u64>
        ensures number { MatchOption result ((k : ℕ) → 1 ≤ k → k < 2 ^ 64 → id.now ≢ agent_name self.now k)
            (λ k. (1 ≤ k) × (k < 2 ^ 64) × (id.now ≡ agent_name self.now k)) }
    {
        let Some(rest) = after(self.bytes(), id.bytes()) else {
            return None;
        };
        let Some(digits) = after(b"-", rest) else {
            return None;
        };
        let Some(k) = read_decimal(digits) else {
            return None;
        };
        if k == 0 { None } else { Some(k) }
    }
}
