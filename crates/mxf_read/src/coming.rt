//! The value of a packet that comes in parts.
ghost use Rattle.std.specs.Prelude.{◌≡◌, ◌+◌, ◌≤◌, ◌++◌, [], List, ℕ, length, IfOk, OnOk, true, false};
ghost use Rattle.sha2.specs.Hashers.{Holds256};
ghost use Rattle.sha2.specs.Sha256.{sha256};
ghost use Rattle.mxf_klv.specs.Note.{greatest_end, keeps};
ghost use Rattle.mxf_read.specs.ValueSoFar.{came_of, is_gathered, is_passing, noted_if, passes};
ghost use Rattle.mxf_skim.specs.PassedOver.{is_in_container};

use mxf_klv::{Ber, Note, OutOfMemory, Ul};
use mxf_skim::{Scan, is_of_container, passed_over};
use sha2::{Digest, Sha256};
use std::alloc::Global;

/// What is held of a value so far: all of its bytes, or a digest that has taken them; nothing of one that is passed
/// over.
#[derive(Drop)]
pub(crate) enum ValueSoFar {
    Gathered(Vec<u8>),
    Digested(Sha256),
    PassedOver,
}

/// A packet at an offset: its key and length are known, and a front of the value has come.
///
/// A value that a note keeps is gathered, in room that is taken at the start. Another is digested as it passes, unless
/// it is passed over.
#[derive(Drop)]
pub struct ComingValue {
    offset: u64,
    key: Ul,
    ber: Ber,
    left: u64,
    so_far: ValueSoFar,

    ghost within: { offset + 16 + ber.width + ber.value ≤ greatest_end },
    ghost sort: { is_gathered so_far ≡ keeps key ber.value },
    ghost passing: { is_passing so_far ≡ true → is_in_container key ber.value ≡ true },
    ghost counted: { came_of so_far ber.value left + left ≡ ber.value },
}

impl ComingValue {
    ghost use Rattle.mxf_klv.specs.Note.{note_of};
    ghost use Rattle.mxf_klv.specs.Parts.{head_parts, packet_parts};
    ghost use Rattle.mxf_read.specs.Coming.{HasTaken, IsSamePacket};

    /// No byte of the value has come.
    pub fn of(alloc: Global, offset: u64, key: Ul, ber: Ber) -> Result<ComingValue, OutOfMemory>
        requires { offset + 16 + ber.width + ber.value ≤ greatest_end }
        ensures offset { IfOk result (λ v. v.offset ≡ offset) }
        ensures key { IfOk result (λ v. v.key ≡ key) }
        ensures length { IfOk result (λ v. v.ber ≡ ber) }
        ensures none { IfOk result (λ v. HasTaken v []) }
        ensures read { IfOk result (λ v. is_passing v.so_far ≡ false) }
    {
        let left = ber.value();
        let so_far = if Note::keeps(&key, left) {
            ValueSoFar::Gathered(Vec::with_capacity(alloc, left as usize)?)
        } else {
            ValueSoFar::Digested(Sha256::new())
        };
        Ok(ComingValue {
            offset,
            key,
            ber,
            left,
            so_far,
        })
    }

    /// The same, as a scan takes it: a skim passes over the value of a packet of a container.
    pub fn by(
        alloc: Global,
        scan: Scan,
        offset: u64,
        key: Ul,
        ber: Ber,
    ) -> Result<ComingValue, OutOfMemory>
        requires { offset + 16 + ber.width + ber.value ≤ greatest_end }
        ensures offset { IfOk result (λ v. v.offset ≡ offset) }
        ensures key { IfOk result (λ v. v.key ≡ key) }
        ensures length { IfOk result (λ v. v.ber ≡ ber) }
        ensures none { IfOk result (λ v. HasTaken v []) }
        ensures passing { IfOk result (λ v. is_passing v.so_far ≡ passes scan key ber.value) }
    {
        match scan {
            Scan::Skim if is_of_container(&key, ber.value()) => Ok(ComingValue {
                offset,
                key,
                ber,
                left: ber.value(),
                so_far: ValueSoFar::PassedOver,
            }),
            Scan::Full | Scan::Skim => ComingValue::of(alloc, offset, key, ber),
        }
    }

    /// Whether the value is passed over.
    pub fn is_passing(&self) -> bool
        ensures { result ≡ is_passing self.now.so_far }
    {
        matches!(self.so_far, ValueSoFar::PassedOver)
    }

    /// The number of bytes that are to come.
    pub fn left(&self) -> u64
        ensures { result ≡ self.now.left }
    {
        self.left
    }

    /// The number of the value's bytes.
    pub(crate) fn length(&self) -> u64
        ensures { result ≡ self.now.ber.value }
    {
        self.ber.value()
    }

    /// The number of the packet's bytes.
    pub(crate) fn size(&self) -> u64 {
        let head = 16 + u64::from(self.ber.width());
        self.ber.value().saturating_add(head)
    }

    /// The head of the packet.
    pub(crate) fn head(&self) -> Note
        ensures { result ≡ head_parts self.now.offset self.now.key self.now.ber.width self.now.ber.value }
    {
        Note::head(self.offset, self.key, self.ber.width(), self.ber.value()).unwrap()
    }

    /// Takes the next bytes of the value.
    pub fn take(&mut self, bytes: &[u8]) -> Result<(), OutOfMemory>
        requires { length bytes.now ≤ self.old.left }
        ensures same { IsSamePacket self.old self.new }
        ensures taken { OnOk result ((m : List ℕ) → HasTaken self.old m → HasTaken self.new (m ++ bytes.now)) }
    {
        match &mut self.so_far {
            ValueSoFar::Gathered(value) => value.extend_from_slice(bytes)?,
            ValueSoFar::Digested(hasher) => hasher.update(bytes),
            ValueSoFar::PassedOver => {}
        }
        self.left -= bytes.len() as u64;
        Ok(())
    }

    /// Passes over the next bytes of the value, which is passed over.
    pub fn pass(&mut self, count: u64)
        requires passing { is_passing self.old.so_far ≡ true }
        requires within { count ≤ self.old.left }
        ensures same { IsSamePacket self.old self.new }
        ensures taken { (m x : List ℕ) → length x ≡ count → HasTaken self.old m → HasTaken self.new (m ++ x) }
    {
        self.left -= count;
    }

    /// The note of the packet, whose value has come whole, or was passed over. The digest of no byte is at hand, since
    /// many packets have no value.
    pub fn into_note(self, of_nothing: [u8; 32]) -> Note
        requires left { self.left ≡ 0 }
        requires of_nothing { of_nothing ≡ sha256 [] }
        ensures { (m : List ℕ) → HasTaken self m
            → result ≡ noted_if (is_passing self.so_far) (note_of self.offset (packet_parts self.key self.ber.width m)) }
    {
        let ComingValue {
            offset,
            key,
            ber,
            so_far,
            ..
        } = self;
        match so_far {
            ValueSoFar::Gathered(value) => Note::kept(offset, key, ber.width(), value).unwrap(),
            ValueSoFar::Digested(hasher) => {
                let digest = digest_of(hasher, ber.value(), of_nothing);
                Note::digested(offset, key, ber.width(), ber.value(), digest).unwrap()
            }
            ValueSoFar::PassedOver => passed_over(offset, key, ber.width(), ber.value()).unwrap(),
        }
    }
}

/// The digest of a value of `count` bytes, which the hasher has taken.
fn digest_of(hasher: Sha256, count: u64, of_nothing: [u8; 32]) -> [u8; 32]
    requires { of_nothing ≡ sha256 [] }
    ensures { (m : List ℕ) → Holds256 hasher m → length m ≡ count → result ≡ sha256 m }
{
    if count == 0 {
        of_nothing
    } else {
        hasher.finalize()
    }
}
