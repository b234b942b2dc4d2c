//! The carriers that a header declares.
ghost use Rattle.std.specs.Prelude.{◌≡◌, ◌+◌, ◌<◌, ◌≤◌, ◌^◌, ◌↔◌, ◌++◌, ◌∷◌, [], length, position, string_bytes, IsSome, IsErrOf, OnOk, OnErr, None, IfOk, IfSome, slice_get};
ghost use Rattle.std.specs.Option.{option_copied};
ghost use Rattle.std.specs.Str.{bytes_eq};
ghost use Rattle.knit_base.specs.Names.{carrier_of, header_line, AreNames, IsName, names_len};
ghost use Rattle.knit_base.specs.Lines.{HasNoLineEnd};

use crate::{CarrierNo, NoMemory};
use indexmap::IndexSet;
use std::alloc::Global;
use std::marker::Model;

/// The names of the carriers, in the order of the header. No name stands twice, and there are at most 64.
#[derive(Drop)]
pub struct Declared {
    names: IndexSet<String>,
}

impl Model for Declared {
    ghost use Rattle.std.specs.Prelude.{List, ℕ, map, string_bytes};
    ghost use Rattle.knit_base.specs.Names.{AreNames};

    ghost Value = { List (List ℕ) };

    ghost view = { λ d. map string_bytes d.names.keys };

    ghost invariant = { λ d. AreNames (map string_bytes d.names.keys) };
}

/// Why a name isn't added.
#[derive(Clone, Copy, Debug, PartialEq, Eq)]
pub enum AddName {
    /// The name is there.
    Twice,
    /// The name isn't there, and 64 names are.
    Many,
    NoMemory,
}

// The place of the name with these bytes.
fn place_of(names: &[String], name: &[u8]) -> Option<usize>
    ensures { result ≡ position (λ declared. bytes_eq name.now (string_bytes declared)) names.now }
{
    names
        .iter()
        .position(|declared| is_same(name, declared.as_bytes()))
}

// Whether two names are the same. Most have one byte, which is compared at once.
#[inline(always)]
fn is_same(name: &[u8], declared: &[u8]) -> bool
    ensures { result ≡ bytes_eq name.now declared.now }
{
    match (name, declared) {
        ([a], [b]) => a == b,
        _ => name == declared,
    }
}

impl Declared {
    pub fn new(alloc: Global) -> Self
        ensures { result ≡ [] }
    {
        Declared {
            names: IndexSet::new(alloc),
        }
    }

    pub fn len(&self) -> u8
        ensures len { result ≡ length self.now }
        ensures few { length self.now ≤ 64 }
    {
        self.names.len() as u8
    }

    /// The name of a carrier.
    pub fn name(&self, c: CarrierNo) -> Option<&str>
        ensures { option_copied result ≡ slice_get self.now c.0 }
    {
        match self.names.get_index(c.0 as usize) {
            Some(name) => Some(name.as_str()),
            None => None,
        }
    }

    /// The carrier with this name.
    pub fn find(&self, name: &str) -> Option<CarrierNo>
        ensures found { result ≡ carrier_of self.now name.now }
        ensures carrier { IfSome result (λ c. c.0 < length self.now) }
        ensures few { length self.now ≤ 64 }
    {
        self.find_bytes(name.as_bytes())
    }

    /// The carrier whose name has these bytes.
    pub fn find_bytes(&self, name: &[u8]) -> Option<CarrierNo>
        ensures found { result ≡ carrier_of self.now name.now }
        ensures carrier { IfSome result (λ c. c.0 < length self.now) }
        ensures few { length self.now ≤ 64 }
    {
        match place_of(self.names.as_slice(), name) {
            Some(at) => Some(CarrierNo(at as u8)),
            None => None,
        }
    }

    /// Adds a name behind the others. A name that is refused leaves the names as they are.
    pub fn add(&mut self, name: &str) -> Result<(), AddName>
        requires name { IsName name.now }
        requires room { names_len (self.old ++ name.now ∷ []) ≤ 65524 }
        ensures ok { OnOk result (self.new ≡ self.old ++ name.now ∷ []) }
        ensures err { OnErr result (self.new ≡ self.old) }
        ensures twice { IsErrOf result AddName.Twice ↔ IsSome (carrier_of self.old name.now) }
        ensures many { IsErrOf result AddName.Many ↔ ((carrier_of self.old name.now ≡ None) × (length self.old ≡ 64)) }
    {
        if self.find(name).is_some() {
            return Err(AddName::Twice);
        }
        if self.len() == 64 {
            return Err(AddName::Many);
        }
        match self.append(name) {
            Ok(()) => Ok(()),
            Err(NoMemory) => Err(AddName::NoMemory),
        }
    }

    // Appends a name that isn't there.
    fn append(&mut self, name: &str) -> Result<(), NoMemory>
        requires name { IsName name.now }
        requires room { names_len (self.old ++ name.now ∷ []) ≤ 65524 }
        requires few { length self.old < 64 }
        requires new { carrier_of self.old name.now ≡ None }
        ensures ok { OnOk result (self.new ≡ self.old ++ name.now ∷ []) }
        ensures err { OnErr result (self.new ≡ self.old) }
    {
        let name = String::from_str(*self.names.allocator(), name)?;
        self.names.insert(name)?;
        Ok(())
    }

    /// An equal list of names.
    pub fn try_clone(&self) -> Result<Self, NoMemory>
        ensures { IfOk result (λ copy. copy ≡ self.now) }
    {
        let names = self.names.clone()?;
        Ok(Declared { names })
    }

    /// The line of a header with these names: `;;Carriers:`, and each name behind a space. The only error is want of memory.
    pub fn header_line(&self, alloc: Global) -> Result<String, NoMemory>
        ensures line { IfOk result (λ line. string_bytes line ≡ header_line self.now) }
        ensures one { IfOk result (λ line. HasNoLineEnd (string_bytes line)) }
        ensures short { IfOk result (λ line. length (string_bytes line) < 2 ^ 16) }
        ensures names { IfOk result (λ line. AreNames self.now) }
    {
        let names = self.names.as_slice();
        let mut line = String::from_str(alloc, ";;Carriers:")?;
        for name in names {
            line.push_str(" ")?;
            line.push_str(name.as_str())?;
        }
        Ok(line)
    }
}
