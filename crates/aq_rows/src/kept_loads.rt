//! The loads that were taken.
ghost use Rattle.std.specs.Prelude.{◌≡◌, [], ◌∷◌, length, nat_le, nat_lt, option_map, IsTrue, OnErr, OnOk};
ghost use Rattle.std.specs.List.{list_all};
ghost use Rattle.aq_rules.specs.Limits.{MOST_LOADS};
ghost use Rattle.aq_rules.specs.Office.Office.{load_rank, row_at, with_row};
ghost use Rattle.aq_rows.specs.KeptLoads.{digest_in, reply_in, stored_as, stored_in};

use aq_base::{LoadReply, MOST_LOADS, Memory};
use std::alloc::Global;
use std::collections::BTreeMap;
use std::collections::btree_map::Iter;
use std::marker::Model;

/// What is kept of a load beside its number: the SHA-256 of its body, and its reply.
#[derive(Drop)]
pub struct KeptLoad {
    pub digest: [u8; 32],
    pub reply: LoadReply,
}

/// The loads that were taken, each once. Contracts see the list of them in rising order of numbers.
#[derive(Drop)]
pub struct Loads {
    by_number: BTreeMap<u32, KeptLoad>,
}

impl Model for Loads {
    ghost use Rattle.std.specs.Prelude.{List};
    ghost use Rattle.aq_rules.specs.Office.Office.{StoredLoad};
    ghost use Rattle.aq_rows.specs.KeptLoads.{stored_in};

    ghost Value = { List StoredLoad };

    ghost view = { λ loads. stored_in loads.by_number.entries };
}

impl Loads {
    /// No loads. It takes no memory.
    pub fn new(alloc: Global) -> Loads
        ensures { result ≡ [] }
    {
        Loads {
            by_number: BTreeMap::new(alloc),
        }
    }

    /// Whether as many stand as may.
    pub fn are_full(&self) -> bool
        ensures { result ≡ nat_le MOST_LOADS (length self.now) }
    {
        self.by_number.len() >= MOST_LOADS
    }

    /// The loads by their numbers, in rising order.
    pub fn entries(&self) -> Iter<'_, u32, KeptLoad>
        ensures { stored_in result ≡ self.now }
    {
        self.by_number.iter()
    }

    /// The reply to the load with a number, if one stands, by one search of the map.
    pub fn reply_of(&self, number: u32) -> Option<&LoadReply>
        ensures { option_map (λ reply. reply.now) result ≡ option_map reply_in (row_at load_rank (number ∷ []) self.now) }
    {
        let kept = self.by_number.get(&number)?;
        Some(&kept.reply)
    }

    /// The digest of the load with a number, if one stands, by one search of the map.
    pub fn digest_of(&self, number: u32) -> Option<[u8; 32]>
        ensures { result ≡ option_map digest_in (row_at load_rank (number ∷ []) self.now) }
    {
        let kept = self.by_number.get(&number)?;
        Some(kept.digest)
    }

    /// Keeps a load under a number, by one search of the map.
    pub fn put(&mut self, number: u32, digest: [u8; 32], reply: LoadReply) -> Result<(), Memory>
        ensures ok { OnOk result (self.new ≡ with_row load_rank (stored_as number digest reply) self.old) }
        ensures unchanged { OnErr result (self.new ≡ self.old) }
    {
        self.by_number.insert(number, KeptLoad { digest, reply })?;
        Ok(())
    }
}

/// A digest is a list of 32 bytes.
pub fn digest_is_32_bytes(digest: &[u8; 32])
    ensures many { length digest.now ≡ 32 }
    ensures bytes { IsTrue (list_all (λ byte. nat_lt byte 256) digest.now) }
{
    bytes_are_below_256(&digest[..]);
}

/// A byte is below 256.
fn bytes_are_below_256(bytes: &[u8])
    ensures { IsTrue (list_all (λ byte. nat_lt byte 256) bytes.now) }
{}
