//! The texts of domains that a file repeats, so that such a text is not read each time.

ghost use Rattle.std.specs.Prelude.{◌≡◌, ◌<◌, ◌⊎◌, IfOk, IfErr, IfSome, length};
ghost use Rattle.gtd_text.specs.Faults.{no_memory};
ghost use Rattle.gtd_text.specs.Reading.{HasNoFault, IsFault, StandsFor};

use crate::shared::SharedDomain;
use gtd_core::{Fault, TextFault};
use gtd_text::read_domain;
use std::alloc::{AllocError, Global};
use std::marker::Model;

/// How many texts are kept.
const PLACES: usize = 4096;

/// The bytes of the longest text that is kept.
const LONGEST: usize = 256;

/// Memory was refused.
const NO_MEMORY: TextFault = TextFault {
    kind: Fault::NoMemory,
    place: 0,
};

/// A text and the domain that it stands for. In contracts it is the text.
#[derive(Drop)]
struct KnownText {
    text: Vec<u8>,
    domain: SharedDomain,
}

impl Model for KnownText {
    ghost use Rattle.std.specs.Prelude.{List, ℕ};
    ghost use Rattle.gtd_text.specs.Reading.{HasNoFault, StandsFor};

    ghost Value = { List ℕ };

    ghost view = { λ a. a.text.items };

    ghost invariant = { λ a. StandsFor a.text.items a.domain × HasNoFault a.text.items };
}

// The hash of a text (that of FNV, from 0). Few other texts have the same.
fn hash_of(text: &[u8]) -> u32 {
    let mut hash = 0u32;
    for byte in text {
        hash = (hash ^ u32::from(*byte)).wrapping_mul(16_777_619);
    }
    hash
}

// The place of a text with this hash. Other texts may have the same place.
fn place_of(hash: u32) -> usize
    ensures { result < 4096 }
{
    (hash >> 20) as usize
}

// A copy of a text, with its domain.
fn known_text(alloc: Global, text: &[u8], domain: &SharedDomain) -> Result<KnownText, AllocError>
    requires found { StandsFor text.now domain.now }
    requires faultless { HasNoFault text.now }
{
    let domain = domain.share()?;
    let mut bytes = Vec::new(alloc);
    bytes.extend_from_slice(text)?;
    Ok(KnownText {
        text: bytes,
        domain,
    })
}

// The domain that a text means, or its first fault. The domain may keep its spans in a week.
fn read_shared(alloc: Global, text: &[u8], keep_week: bool) -> Result<SharedDomain, TextFault>
    ensures found { IfOk result (λ domain. StandsFor text.now domain × HasNoFault text.now) }
    ensures fault { IfErr result (λ fault. (fault ≡ no_memory) ⊎ IsFault text.now fault) }
{
    let domain = read_domain(alloc, text)?;
    match SharedDomain::new(alloc, domain, keep_week) {
        Ok(shared) => Ok(shared),
        Err(_) => Err(NO_MEMORY),
    }
}

/// The latest texts that were read twice, each at its place, with their domains.
#[derive(Drop)]
pub(crate) struct KnownTexts {
    places: Vec<Option<KnownText>>,
    /// The hash of the latest text of each place that was read.
    latest_hashes: Vec<u32>,
    /// The hash of the text that was read last. Equal texts have the same.
    pub(crate) latest: u32,
}

impl KnownTexts {
    /// Holds no text yet. Takes no memory.
    pub(crate) fn new(alloc: Global) -> KnownTexts {
        KnownTexts {
            places: Vec::new(alloc),
            latest_hashes: Vec::new(alloc),
            latest: 0,
        }
    }

    // Whether the latest text of the same place had the same hash. From now on, this one is the latest.
    fn replace_latest_hash(&mut self, hash: u32) -> Result<bool, AllocError> {
        for _ in self.latest_hashes.len()..PLACES {
            self.latest_hashes.push(0)?;
        }
        let Some(latest) = self.latest_hashes.get_mut(place_of(hash)) else {
            return Ok(false);
        };
        let is_same = *latest == hash;
        *latest = hash;
        Ok(is_same)
    }

    // The domain of a text with this hash, if the text is known.
    fn find(&self, text: &[u8], hash: u32) -> Result<Option<SharedDomain>, AllocError>
        ensures { IfOk result (λ found. IfSome found (λ domain. StandsFor text.now domain × HasNoFault text.now)) }
    {
        let Some(Some(known)) = self.places.get(place_of(hash)) else {
            return Ok(None);
        };
        if known.text.as_slice() != text {
            return Ok(None);
        }
        let domain = known.domain.share()?;
        Ok(Some(domain))
    }

    // Keeps a text with this hash at its place.
    fn keep(
        &mut self,
        alloc: Global,
        text: &[u8],
        hash: u32,
        domain: &SharedDomain,
    ) -> Result<(), AllocError>
        requires found { StandsFor text.now domain.now }
        requires faultless { HasNoFault text.now }
    {
        for _ in self.places.len()..PLACES {
            self.places.push(None)?;
        }
        let known = known_text(alloc, text, domain)?;
        if let Some(place) = self.places.get_mut(place_of(hash)) {
            *place = Some(known);
        }
        Ok(())
    }

    /// The domain that a text means, or its first fault: as `read_domain` answers. A text is kept when it is read for the
    /// second time: a file that repeats no text would only pay for the copies, and for the spans of weeks.
    pub(crate) fn read(&mut self, alloc: Global, text: &[u8]) -> Result<SharedDomain, TextFault>
        ensures found { IfOk result (λ domain. StandsFor text.now domain × HasNoFault text.now) }
        ensures fault { IfErr result (λ fault. (fault ≡ no_memory) ⊎ IsFault text.now fault) }
    {
        let hash = hash_of(text);
        self.latest = hash;
        if text.len() > LONGEST {
            return read_shared(alloc, text, false);
        }
        match self.find(text, hash) {
            Ok(Some(domain)) => return Ok(domain),
            Ok(None) => {}
            Err(_) => return Err(NO_MEMORY),
        }
        let Ok(is_repeated) = self.replace_latest_hash(hash) else {
            return Err(NO_MEMORY);
        };
        let domain = read_shared(alloc, text, is_repeated)?;
        if !is_repeated {
            return Ok(domain);
        }
        match self.keep(alloc, text, hash, &domain) {
            Ok(()) => Ok(domain),
            Err(_) => Err(NO_MEMORY),
        }
    }
}
