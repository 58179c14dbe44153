// Digests of texts, and contributions beside those of their texts.
ghost use Rattle.std.specs.Prelude.{◌≡◌, ◌≤◌, ◌+◌, ◌++◌, ◌∷◌, [], ℕ, reverse, string_bytes, IfOk, IfErr, OnOk, IsOk, MatchOption, vec_len};
ghost use Rattle.std.specs.List.{insert};
ghost use Rattle.hex.specs.Hex.{encode_lower};
ghost use Rattle.rn_modset.specs.Bundles.{digest};
ghost use Rattle.rn_modset.specs.Contributions.{member};
ghost use Rattle.rn_modset.specs.Digests.{set_digest, text_digest};
ghost use Rattle.rn_modset.specs.inside.Digested.{members_in, IsDigested, AreDigested, HasRoom};

use crate::contribution::Contribution;
use sha2::{Digest, Sha256};
use std::alloc::{AllocError, Global};

/// A contribution with the digest of its text.
#[derive(Drop)]
pub struct Digested {
    /// The contribution.
    pub contribution: Contribution,
    /// SHA-256 (FIPS 180-4) of its text, of no bytes if it is a withdrawal.
    pub digest: [u8; 32],
}

/// Contributions, and at the same places the digests of their texts. So each text is digested once.
#[derive(Drop)]
pub struct Members {
    /// The contributions, in a set in their order.
    pub contributions: Vec<Contribution>,
    /// The digest of each contribution's text, at the same place.
    pub digests: Vec<[u8; 32]>,
}

impl Members {
    /// No contributions. They take no memory.
    pub fn new(alloc: Global) -> Members
        ensures none { result.contributions.items ≡ [] }
        ensures digested { AreDigested result }
    {
        Members {
            contributions: Vec::new(alloc),
            digests: Vec::new(alloc),
        }
    }

    /// No contributions, with room for this many.
    pub fn with_capacity(alloc: Global, capacity: usize) -> Result<Members, AllocError>
        ensures none { IfOk result (λ members. members.contributions.items ≡ []) }
        ensures digested { IfOk result AreDigested }
        ensures room { IfOk result (λ members. HasRoom members capacity) }
    {
        Ok(Members {
            contributions: Vec::with_capacity(alloc, capacity)?,
            digests: Vec::with_capacity(alloc, capacity)?,
        })
    }

    /// SHA-256 (FIPS 180-4) of the digests that are kept, one after another.
    pub fn digest(&self) -> [u8; 32]
        requires { AreDigested self.now }
        ensures { result ≡ set_digest (members_in self.now) }
    {
        let digests = self.digests.as_slice();
        let mut hasher = Sha256::new();
        for digest in digests {
            hasher.update(digest);
        }
        hasher.finalize()
    }

    /// Appends a contribution with its digest. It succeeds where there is room.
    pub fn push(&mut self, digested: Digested) -> Result<(), AllocError>
        requires digest { IsDigested digested }
        requires before { AreDigested self.old }
        ensures ok { OnOk result (self.new.contributions.items
            ≡ self.old.contributions.items ++ digested.contribution ∷ []) }
        ensures digested { OnOk result (AreDigested self.new) }
        ensures succeeds { HasRoom self.old 1 → IsOk result }
        ensures room { (n : ℕ) → HasRoom self.old (n + 1) → HasRoom self.new n }
    {
        self.digests.reserve(1)?;
        if self.contributions.push(digested.contribution).is_err() {
            return Err(AllocError);
        }
        if self.digests.push(digested.digest).is_err() {
            unreachable!()
        }
        Ok(())
    }

    /// Puts a contribution in at that place, with its digest; where memory could not be had it comes back, and nothing
    /// has changed.
    pub fn insert(&mut self, at: usize, contribution: Contribution) -> Result<(), Contribution>
        requires at { at ≤ vec_len self.old.contributions }
        requires before { AreDigested self.old }
        ensures ok { OnOk result (self.new.contributions.items
            ≡ insert self.old.contributions.items at contribution) }
        ensures err { IfErr result (λ refused. (refused ≡ contribution)
            × (self.new.contributions.items ≡ self.old.contributions.items)) }
        ensures digested { AreDigested self.new }
    {
        if self.digests.reserve(1).is_err() {
            return Err(contribution);
        }
        let digest = text_digest(&contribution);
        if let Err(refused) = self.contributions.insert(at, contribution) {
            return Err(refused.value);
        }
        if self.digests.insert(at, digest).is_err() {
            unreachable!()
        }
        Ok(())
    }

    /// Takes the last contribution, with its digest; `None` where there is none.
    pub fn pop(&mut self) -> Option<Digested>
        requires { AreDigested self.old }
        ensures last { MatchOption result (self.old.contributions.items ≡ [])
            (λ d. (self.old.contributions.items
            ≡ self.new.contributions.items ++ d.contribution ∷ []) × IsDigested d) }
        ensures fewer { MatchOption result (vec_len self.old.contributions ≡ 0)
            (λ d. vec_len self.new.contributions + 1 ≡ vec_len self.old.contributions) }
        ensures digested { AreDigested self.new }
    {
        Some(Digested {
            contribution: self.contributions.pop()?,
            digest: self.digests.pop()?,
        })
    }

    /// Turns the order of the contributions and of their digests round.
    pub fn reverse(&mut self)
        requires { AreDigested self.old }
        ensures items { self.new.contributions.items ≡ reverse self.old.contributions.items }
        ensures digested { AreDigested self.new }
    {
        self.contributions.reverse();
        self.digests.reverse();
    }
}

/// The digest of a text as bundles spell it: SHA-256 (FIPS 180-4) in 64 hexadecimal digits in lower case.
pub fn hex_digest(alloc: Global, text: &[u8]) -> Result<String, AllocError>
    ensures { IfOk result (λ digits. string_bytes digits ≡ digest text.now) }
{
    digest_digits(alloc, &Sha256::digest(text))
}

/// The hexadecimal digits of a digest, in lower case, the higher one of each byte first.
pub(crate) fn digest_digits(alloc: Global, digest: &[u8]) -> Result<String, AllocError>
    ensures { IfOk result (λ digits. string_bytes digits ≡ encode_lower digest.now) }
{
    hex::encode(alloc, digest)
}

/// The digest of the contribution's text, that of no bytes if it is a withdrawal.
pub(crate) fn text_digest(contribution: &Contribution) -> [u8; 32]
    ensures { result ≡ text_digest (member contribution.now) }
{
    match &contribution.text {
        Some(text) => Sha256::digest(text.as_slice()),
        None => Sha256::digest(b""),
    }
}
