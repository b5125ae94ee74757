//! The literals of a program, and the place of each among them.
ghost use Rattle.std.specs.Prelude.{◌≡◌, ◌++◌, [], ◌∷◌, Some, false, IfOk, OnOk, OnErr, length};
ghost use Rattle.std.specs.BTreeMap.{IsUnchanged, Updates};
ghost use Rattle.ec_emission.specs.Expressions.{has_text, literal_from};
ghost use Rattle.ec_emission.specs.Literals as spec;
ghost use Rattle.ec_expressions.specs.Places.{by_bytes, place_from};

use crate::texts::texts_of;
use ec_base::list::Seq;
use ec_core::Core;
use ec_world::value::Text;
use std::alloc::{AllocError, Global};
use std::collections::BTreeMap;
use std::marker::Model;

/// Texts, each of them once. Contracts see the list of them.
#[derive(Drop)]
pub struct Literals {
    alloc: Global,
    texts: Vec<Text>,
    // the place of each text
    places: BTreeMap<Vec<u8>, usize>,
}

impl Model for Literals {
    ghost use Rattle.std.specs.Prelude.{List, ℕ};
    ghost use Rattle.ec_expressions.specs.Places.{ArePlaces};

    ghost Value = { List (List ℕ) };

    ghost view = { λ l. l.texts.items };

    ghost invariant = { λ l. ArePlaces l.places l.texts.items };
}

/// The literals of a program: the empty text, and then each text of its core, once. The error is want of memory.
pub fn literals_of(alloc: Global, core: &Core) -> Result<Literals, AllocError>
    ensures { IfOk result (λ literals. literals ≡ spec.literals_of core.now) }
{
    let texts = texts_of(alloc, core)?;
    let mut literals = Literals::new(alloc);
    literals.push(&[])?;
    literals.add_all(texts.as_slice())?;
    Ok(literals)
}

impl Literals {
    /// The texts, without their places.
    pub fn into_texts(self) -> Seq<Text>
        ensures { result ≡ self }
    {
        let Literals { texts, .. } = self;
        Seq::from_vec(texts)
    }

    /// The place of a text; how many texts there are, where it is none of them. The error is want of memory.
    #[tactic(auto, using(crate::proofs::PlacesLemmas::place_at))]
    pub fn place(&self, text: &[u8]) -> Result<usize, AllocError>
        ensures { IfOk result (λ n. n ≡ literal_from 0 self.now text.now) }
    {
        Ok(self.find(text)?.unwrap_or(self.len()))
    }

    /// No texts.
    fn new(alloc: Global) -> Literals
        ensures { result ≡ [] }
    {
        Literals {
            alloc,
            texts: Vec::new(alloc),
            places: BTreeMap::new(alloc),
        }
    }

    /// How many texts there are.
    fn len(&self) -> usize
        ensures { result ≡ length self.now }
    {
        self.texts.len()
    }

    /// The place of a text, if it is there. The error is want of memory.
    fn find(&self, text: &[u8]) -> Result<Option<usize>, AllocError>
        ensures { IfOk result (λ place. place ≡ place_from 0 self.now text.now) }
    {
        let key = Vec::from_slice(self.alloc, text)?;
        Ok(self.places.get(key.as_slice()).copied())
    }

    /// Whether a text is there. The error is want of memory.
    #[tactic(auto, using(crate::proofs::PlacesLemmas::has_place))]
    fn has(&self, text: &[u8]) -> Result<bool, AllocError>
        ensures { IfOk result (λ b. b ≡ has_text self.now text.now) }
    {
        Ok(self.find(text)?.is_some())
    }

    /// A text that isn't there, behind the others. The error is want of memory.
    fn push(&mut self, text: &[u8]) -> Result<(), AllocError>
        requires { has_text self.old text.now ≡ false }
        ensures { OnOk result (self.new ≡ self.old ++ text.now ∷ []) }
    {
        let own = Vec::from_slice(self.alloc, text)?;
        let key = Vec::from_slice(self.alloc, text)?;
        self.texts.reserve(1)?;
        enter(&mut self.places, key, self.texts.len())?;
        self.texts.push(Seq::from_vec(own))?;
        Ok(())
    }

    /// A text, unless it is there. The error is want of memory.
    fn add(&mut self, text: &[u8]) -> Result<(), AllocError>
        ensures { OnOk result (self.new ≡ spec.with_new self.old (text.now ∷ [])) }
    {
        if self.has(text)? {
            return Ok(());
        }
        self.push(text)
    }

    /// Those of some texts that are new, each once. The error is want of memory.
    fn add_all(&mut self, texts: &[Text]) -> Result<(), AllocError>
        ensures { OnOk result (self.new ≡ spec.with_new self.old texts.now) }
    {
        for text in texts {
            self.add(text.as_slice())?;
        }
        Ok(())
    }
}

/// A text gets a place. The error is want of memory, and then nothing has changed.
fn enter(
    places: &mut BTreeMap<Vec<u8>, usize>,
    key: Vec<u8>,
    place: usize,
) -> Result<(), AllocError>
    ensures entered { OnOk result (Updates by_bytes places.old places.new key (Some place)) }
    ensures kept { OnErr result (IsUnchanged places.old places.new) }
{
    places.insert(key, place)?;
    Ok(())
}
