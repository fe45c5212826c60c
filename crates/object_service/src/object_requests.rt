//! What requests do to objects.
ghost use Rattle.std.specs.Prelude.{◌≡◌, ◌<◌, ◌≤◌, true, List, length, IfOk, OnErr};
ghost use Rattle.std.specs.Option.{option_map};
ghost use Rattle.std.specs.Result.{result_err};
ghost use Rattle.own_model.specs.ObjectKinds as model;
ghost use Rattle.own_model.specs.ObjectKinds.{AreObjectKinds, IsObjectKind};
ghost use Rattle.own_model.specs.ObjectService.{contents_refusal};
ghost use Rattle.own_model.specs.ObjectText.ObjectRequest.{Make, Resize, Drop};
ghost use Rattle.core_calls.specs.ObjectError.{model_object_error};
ghost use Rattle.session_nodes.specs.Frame.{is_listed};
ghost use Rattle.session_nodes.specs.NodeList.{nodes_in, Finds, HasNodes, NoneHas};
ghost use Rattle.session_nodes.specs.Order.{user_at};
ghost use Rattle.session_nodes.specs.SessionHeaps.{stock_of, AreSoundHeaps, KeepsHeaps};
ghost use Rattle.object_service.specs.Kinds.{kind_at};
ghost use Rattle.object_service.specs.Calls.{refusal_error, PutsWords, TakesContent};
ghost use Rattle.object_service.specs.Objects.{object_at, word_at};
ghost use Rattle.object_service.specs.Session.{created_in, objects_in, resized_in, served_in, done_reply, HasObjects, Serves};

use crate::read_requests::number_of;
use crate::session::ObjectSession;
use object_kinds::ObjectKind;
use session_nodes::{FoundNode, Memory, RegionMap, SessionHeaps};
use session_proto::{FileError, ObjectError};
use text_codec::is_name;
use trade_base::Refusal;

/// The offset of the word of an object's kind, which is followed by its units.
pub(crate) const KIND: u64 = 96;

/// The offset of the word of an object's units.
pub(crate) const UNITS: u64 = 104;

/// The bytes of a unit are below this number, by which the number of the kind is multiplied in the word of the kind.
pub(crate) const UNIT_LIMIT: u64 = 65536;

impl ObjectSession {
    /// Creates an object of a kind with this name, without units.
    ///
    /// Refuses with `BadKind` if the server offers no kind of this name, then `BadName` if the name is not valid, then
    /// `Exists` if an object has it. Then refuses as the heap refuses a block of the kind.
    pub(crate) fn make(
        &mut self,
        memory: &mut Memory,
        map: &mut RegionMap,
        kinds: &[ObjectKind],
        kind: &[u8],
        name: &[u8],
    ) -> Result<(), ObjectError>
        requires kinds { AreObjectKinds kinds.now }
        requires furnished { AreSoundHeaps self.old.nodes.heaps memory.old map.old }
        requires objects { HasObjects self.old (stock_of self.old.nodes.heaps memory.old map.old) }
        ensures serves { Serves kinds.now (served_in kinds.now (Make kind.now name.now) self.old
            (stock_of self.old.nodes.heaps memory.old map.old)) (done_reply result)
            self.old self.new (stock_of self.new.nodes.heaps memory.new map.new) }
        ensures keeps { KeepsHeaps self.old.nodes.heaps self.new.nodes.heaps
            memory.old memory.new map.old map.new }
    {
        let number = number_of(kinds, kind).ok_or(ObjectError::BadKind)?;
        if !is_name(name) {
            return Err(ObjectError::Shared(FileError::BadName));
        }
        if self.nodes.find(memory, map, name).is_some() {
            return Err(ObjectError::Shared(FileError::Exists));
        }
        self.create(memory, map, number, &kinds[number], name)
    }

    // Creates an object of the kind of a number, with a name that no object has. Refuses as the heap refuses a block.
    fn create(
        &mut self,
        memory: &mut Memory,
        map: &mut RegionMap,
        number: usize,
        kind: &ObjectKind,
        name: &[u8],
    ) -> Result<(), ObjectError>
        requires low { number < 16 }
        requires kind { IsObjectKind kind.now }
        requires name { length name.now ≤ 32 }
        requires furnished { AreSoundHeaps self.old.nodes.heaps memory.old map.old }
        requires objects { HasObjects self.old (stock_of self.old.nodes.heaps memory.old map.old) }
        requires new { let old = stock_of self.old.nodes.heaps memory.old map.old in
            NoneHas old.nodes name.now (nodes_in self.old.nodes old) }
        ensures serves { (kinds : List model.ObjectKind) → kind_at kinds number ≡ kind.now →
            let old = stock_of self.old.nodes.heaps memory.old map.old in
            Serves kinds (created_in kind.now name.now (objects_in kinds self.old old) old.account)
            (done_reply result) self.old self.new
            (stock_of self.new.nodes.heaps memory.new map.new) }
        ensures keeps { KeepsHeaps self.old.nodes.heaps self.new.nodes.heaps
            memory.old memory.new map.old map.new }
    {
        let block = u64::from(kind.block());
        let address = self
            .nodes
            .create(memory, map, name, block)
            .map_err(error_of)?;
        let word = number as u64 * UNIT_LIMIT + u64::from(kind.bytes());
        self.put_words(memory, map, address, word, 0);
        self.counts.add(number);
        Ok(())
    }

    /// Gives an object so many units. If the object has just these units, nothing is tested. Otherwise the bytes of the units
    /// are a new content, if there are any, and the old content is freed afterwards.
    ///
    /// Refuses with `NotFound` if no object has the name, then `InvalidSize` if the content is past 64 bits. Then refuses if
    /// the account does not cover the new content.
    pub(crate) fn resize(
        &mut self,
        memory: &mut Memory,
        map: &mut RegionMap,
        name: &[u8],
        units: u64,
    ) -> Result<(), ObjectError>
        requires furnished { AreSoundHeaps self.old.nodes.heaps memory.old map.old }
        requires objects { HasObjects self.old (stock_of self.old.nodes.heaps memory.old map.old) }
        ensures serves { (kinds : List model.ObjectKind) →
            Serves kinds (served_in kinds (Resize name.now units) self.old
            (stock_of self.old.nodes.heaps memory.old map.old)) (done_reply result)
            self.old self.new (stock_of self.new.nodes.heaps memory.new map.new) }
        ensures keeps { KeepsHeaps self.old.nodes.heaps self.new.nodes.heaps
            memory.old memory.new map.old map.new }
    {
        let found = self
            .nodes
            .find(memory, map, name)
            .ok_or(ObjectError::Shared(FileError::NotFound))?;
        let heaps = &self.nodes.heaps;
        let word = heaps.load_block_word(memory, map, found.address, KIND);
        if heaps.load_block_word(memory, map, found.address, UNITS) == units {
            return Ok(());
        }
        self.change(memory, map, found, word, units)
    }

    // Gives an object that is found other units, given the word of its kind.
    fn change(
        &mut self,
        memory: &mut Memory,
        map: &mut RegionMap,
        found: FoundNode,
        word: u64,
        units: u64,
    ) -> Result<(), ObjectError>
        requires furnished { AreSoundHeaps self.old.nodes.heaps memory.old map.old }
        requires objects { HasObjects self.old (stock_of self.old.nodes.heaps memory.old map.old) }
        requires found { Finds self.old.nodes
            (stock_of self.old.nodes.heaps memory.old map.old) found.node.name.items found }
        requires word { word ≡ word_at
            (stock_of self.old.nodes.heaps memory.old map.old).nodes found.address }
        ensures serves { (kinds : List model.ObjectKind) →
            let old = stock_of self.old.nodes.heaps memory.old map.old in
            Serves kinds (resized_in units (object_at kinds old.nodes found.address)
            (objects_in kinds self.old old) old.account) (done_reply result)
            self.old self.new (stock_of self.new.nodes.heaps memory.new map.new) }
        ensures keeps { KeepsHeaps self.old.nodes.heaps self.new.nodes.heaps
            memory.old memory.new map.old map.new }
    {
        let size = units
            .checked_mul(word % UNIT_LIMIT)
            .ok_or(ObjectError::Shared(FileError::InvalidSize))?;
        let content = take_content(&mut self.nodes.heaps, memory, map, size)?;
        let address = found.address;
        self.nodes.replace(memory, map, found, content, size);
        self.put_words(memory, map, address, word, units);
        Ok(())
    }

    /// Removes an object with its content. Refuses with `NotFound` if no object has the name.
    pub(crate) fn remove(
        &mut self,
        memory: &mut Memory,
        map: &mut RegionMap,
        name: &[u8],
    ) -> Result<(), ObjectError>
        requires furnished { AreSoundHeaps self.old.nodes.heaps memory.old map.old }
        requires objects { HasObjects self.old (stock_of self.old.nodes.heaps memory.old map.old) }
        ensures serves { (kinds : List model.ObjectKind) →
            Serves kinds (served_in kinds (Drop name.now) self.old
            (stock_of self.old.nodes.heaps memory.old map.old)) (done_reply result)
            self.old self.new (stock_of self.new.nodes.heaps memory.new map.new) }
        ensures keeps { KeepsHeaps self.old.nodes.heaps self.new.nodes.heaps
            memory.old memory.new map.old map.new }
    {
        let found = self
            .nodes
            .find(memory, map, name)
            .ok_or(ObjectError::Shared(FileError::NotFound))?;
        let heaps = &self.nodes.heaps;
        let word = heaps.load_block_word(memory, map, found.address, KIND);
        self.nodes.remove(memory, map, found);
        self.counts.remove((word / UNIT_LIMIT) as usize);
        Ok(())
    }

    // Stores the two words of an object after its node.
    fn put_words(&self, memory: &mut Memory, map: &RegionMap, address: u64, word: u64, units: u64)
        requires furnished { AreSoundHeaps self.now.nodes.heaps memory.old map.now }
        requires nodes { HasNodes self.now.nodes (stock_of self.now.nodes.heaps memory.old map.now) }
        requires listed { is_listed
            (nodes_in self.now.nodes (stock_of self.now.nodes.heaps memory.old map.now))
            address ≡ true }
        requires room { 16 ≤ length (user_at
            (stock_of self.now.nodes.heaps memory.old map.now).nodes address) }
        ensures put { PutsWords self.now.nodes address word units
            (stock_of self.now.nodes.heaps memory.old map.now)
            (stock_of self.now.nodes.heaps memory.new map.now) }
        ensures keeps { KeepsHeaps self.now.nodes.heaps self.now.nodes.heaps
            memory.old memory.new map.now map.now }
    {
        let word = word.to_le_bytes();
        self.nodes.put_user(memory, map, address, KIND, &word);
        let units = units.to_le_bytes();
        self.nodes.put_user(memory, map, address, UNITS, &units);
    }
}

/// Takes a content of so many bytes and returns its address, or 0 for no bytes. Refuses with `InvalidSize` if the content is
/// past 64 bits, then `OutOfRam` or `OutOfCaps` if the account does not cover it. A refused call changes nothing.
fn take_content(
    heaps: &mut SessionHeaps,
    memory: &mut Memory,
    map: &mut RegionMap,
    size: u64,
) -> Result<u64, ObjectError>
    requires furnished { AreSoundHeaps heaps.old memory.old map.old }
    ensures refusal { option_map model_object_error (result_err result)
        ≡ contents_refusal size (stock_of heaps.old memory.old map.old).account }
    ensures taken { IfOk result (λ content. TakesContent size content
        (stock_of heaps.old memory.old map.old) (stock_of heaps.new memory.new map.new)) }
    ensures keeps { KeepsHeaps heaps.old heaps.new memory.old memory.new map.old map.new }
    ensures memory_err { OnErr result (memory.new ≡ memory.old) }
    ensures map_err { OnErr result (map.new ≡ map.old) }
    ensures err { OnErr result (heaps.new ≡ heaps.old) }
{
    if size == 0 {
        return Ok(0);
    }
    heaps.take_content(memory, map, size).map_err(error_of)
}

/// Returns the error of a reply for a refusal of a heap, or of a content.
fn error_of(refusal: Refusal) -> ObjectError
    ensures { model_object_error result ≡ refusal_error refusal }
{
    ObjectError::Shared(match refusal {
        Refusal::InvalidSize => FileError::InvalidSize,
        refusal => session_nodes::error_of(refusal),
    })
}
