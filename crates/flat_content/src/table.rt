ghost use Rattle.std.specs.Prelude.{◌≡◌, ◌==◌, ◌+◌, ◌<◌, ◌≤◌, ◌^◌, ◌++◌, true, false, not, filter};
ghost use Rattle.std.specs.Prelude.{length, option_to_list, vec_capacity, Some, None, IfOk, IfErr};
ghost use Rattle.std.specs.Prelude.{OnOk, OnErr};
ghost use Rattle.flat_scene.specs.Draft.{changed_at, of_serial};
ghost use Rattle.flat_scene.specs.Misuse.{first_reason};
ghost use Rattle.flat_graph.specs.Names.{key_named};
ghost use Rattle.flat_content.specs.Table.{TableState, IsTable, HasRoom, in_use};

use crate::stored_content::{StoredContent, is_viewport, shown, use_in};
use flat_base::{ContentId, Items, NAMED_MAX, NoMemory, Reason};
use flat_graph::{NamedNode, key_of, put_name};
use flat_scene::{BufferList, Content, GraphFault, HeldContent, UseList, ViewportUse};
use std::alloc::Global;
use std::marker::Model;

/// The contents that a session ever made, and what its content ids name.
///
/// The n-th content made has the serial number n. None is ever taken away; names
/// come and go. A call that is refused leaves the table as it was.
#[derive(Drop)]
pub struct ContentTable {
    // The collections of which images may be made.
    pub(crate) buffers: BufferList,
    pub(crate) contents: Vec<StoredContent>,
    // By rising id. The key of a name is the serial of its content.
    pub(crate) names: Vec<NamedNode>,
    // The serials of the viewports neither released nor cleared, the oldest first.
    pub(crate) viewports: Vec<u32>,
    // There is room for one content more, and a serial.
    has_room: bool,
}

impl Model for ContentTable {
    ghost Value = { TableState };

    ghost view = { λ t. record {
      buffers = t.buffers;
      contents = t.contents.items;
      names = t.names.items;
      viewports = t.viewports.items;
      has_room = t.has_room;
    } };

    ghost invariant = { λ t. IsTable
        (record {
          buffers = t.buffers;
          contents = t.contents.items;
          names = t.names.items;
          viewports = t.viewports.items;
          has_room = false;
        })
        × (t.has_room ≡ true → HasRoom (length t.contents.items) (vec_capacity t.contents)
        (length t.names.items) (vec_capacity t.names) (length t.viewports.items)
        (vec_capacity t.viewports)) };
}

/// The content of a serial number, if there is that number.
fn stored_at(contents: &[StoredContent], serial: usize) -> Option<StoredContent>
    ensures { result ≡ of_serial contents.now serial }
{
    if serial == 0 {
        return None;
    }
    contents.get(serial - 1).copied()
}

/// Puts a content in the place of another.
pub(crate) fn put(contents: &mut Vec<StoredContent>, serial: usize, stored: StoredContent)
    requires made { 1 ≤ serial }
    requires within { serial ≤ length contents.old.items }
    ensures capacity { vec_capacity contents.new ≡ vec_capacity contents.old }
    ensures count { length contents.new.items ≡ length contents.old.items }
    ensures items { contents.new.items ≡ changed_at serial (λ _. stored) contents.old.items }
{
    contents[serial - 1] = stored;
}

/// Notes the serial of a viewport that was made.
fn note_use(viewports: &mut Vec<u32>, stored: StoredContent, serial: u32)
    requires { length viewports.old.items < vec_capacity viewports.old }
    ensures { viewports.new.items ≡ in_use stored serial viewports.old.items }
{
    if is_viewport(stored) {
        viewports.push_reserved(serial);
    }
}

/// Takes a serial away from those in use.
pub(crate) fn drop_use(viewports: &mut Vec<u32>, serial: u32)
    ensures capacity { vec_capacity viewports.new ≡ vec_capacity viewports.old }
    ensures fewer { length viewports.new.items ≤ length viewports.old.items }
    ensures items { viewports.new.items
        ≡ filter (λ other. not (other == serial)) viewports.old.items }
{
    viewports.retain(|other| *other != serial);
}

/// Appends the use of a viewport, if it is one.
fn push_some(uses: &mut UseList, found: Option<ViewportUse>) -> Result<(), NoMemory>
    ensures { OnOk result (uses.new ≡ uses.old ++ option_to_list found) }
{
    if let Some(it) = found {
        uses.push(it)?;
    }
    Ok(())
}

// Making a table, and reading it.
impl ContentTable {
    ghost use Rattle.std.specs.List.{filter_map, list_all};
    ghost use Rattle.flat_content.specs.Limits.{are_sides};
    ghost use Rattle.flat_content.specs.Table.{content_at, empty_table, held_of, use_at};
    ghost use Rattle.flat_content.specs.Reasons.{given_tests, name_tests};

    /// A table without contents. Images may be made of these collections. It takes
    /// no memory.
    pub fn new(alloc: Global, buffers: BufferList) -> ContentTable
        requires { list_all are_sides buffers ≡ true }
        ensures { result ≡ empty_table buffers }
    {
        ContentTable {
            buffers,
            contents: Vec::new(alloc),
            names: Vec::new(alloc),
            viewports: Vec::new(alloc),
            has_room: false,
        }
    }

    /// The serial that an id names and its content, or why it names none.
    pub(crate) fn find(&self, c: ContentId) -> Result<(usize, StoredContent), Reason>
        ensures named { IfOk result (λ found. key_named self.now.names c.0 ≡ Some found.0) }
        ensures stored { IfOk result (λ found. of_serial self.now.contents found.0 ≡ Some found.1) }
        ensures made { IfOk result (λ found. 1 ≤ found.0) }
        ensures within { IfOk result (λ found. found.0 ≤ length self.now.contents) }
        ensures few { IfOk result (λ found. found.0 < 2 ^ 32) }
        ensures allowed { OnOk result (first_reason (name_tests self.now c.0) ≡ None) }
        ensures fault { IfErr result (λ reason. first_reason (name_tests self.now c.0)
            ≡ Some reason) }
    {
        if c.0 == 0 {
            return Err(Reason::ZeroId);
        }
        let Some(serial) = key_of(&self.names, c.0) else {
            return Err(Reason::UnknownContent);
        };
        Ok((serial, self.contents[serial - 1]))
    }

    /// The content that an id names, as a transform holds it.
    ///
    /// The reason is ZeroId or UnknownContent. It takes no memory.
    pub fn held(&self, c: ContentId) -> Result<HeldContent, Reason>
        ensures held { IfOk result (λ held. held_of self.now c.0 ≡ Some held) }
        ensures allowed { OnOk result (first_reason (name_tests self.now c.0) ≡ None) }
        ensures fault { IfErr result (λ reason. first_reason (name_tests self.now c.0)
            ≡ Some reason) }
    {
        let (serial, stored) = self.find(c)?;
        Ok(HeldContent {
            serial: serial as u32,
            viewport: is_viewport(stored),
        })
    }

    /// What a transform holds that is given the content of an id: nothing for 0.
    ///
    /// The reason is UnknownContent. It takes no memory.
    pub fn given(&self, c: ContentId) -> Result<Option<HeldContent>, Reason>
        ensures held { IfOk result (λ held. held ≡ held_of self.now c.0) }
        ensures allowed { OnOk result (first_reason (given_tests self.now c.0) ≡ None) }
        ensures fault { IfErr result (λ reason. first_reason (given_tests self.now c.0)
            ≡ Some reason) }
    {
        let _ = &self.names;
        if c.0 == 0 {
            return Ok(None);
        }
        Ok(Some(self.held(c)?))
    }

    /// The content of a serial number, also after its release. None where the
    /// number was never given, or is that of a filled rectangle before its first
    /// SetSolidFill.
    pub fn content(&self, serial: u32) -> Option<Content>
        ensures { result ≡ content_at self.now serial }
    {
        shown(serial, stored_at(&self.contents, serial as usize)?)
    }

    /// The viewports neither released nor cleared, by serial.
    pub fn uses(&self, alloc: Global) -> Result<UseList, NoMemory>
        ensures { IfOk result (λ uses. uses ≡ filter_map (use_at self.now) self.now.viewports) }
    {
        let mut uses = Items::new(alloc);
        for serial in self.viewports.iter() {
            push_some(&mut uses, self.use_of(*serial))?;
        }
        Ok(uses)
    }

    /// The use of a viewport, if the serial is that of one.
    fn use_of(&self, serial: u32) -> Option<ViewportUse>
        ensures { result ≡ use_at self.now serial }
    {
        use_in(serial, stored_at(&self.contents, serial as usize)?)
    }
}

// What each creation does.
impl ContentTable {
    ghost use Rattle.std.specs.Prelude.{◌≢◌};
    ghost use Rattle.flat_graph.specs.Reasons.{IsFault};
    ghost use Rattle.flat_scene.specs.declared.trees.GraphFault.{GraphFault};
    ghost use Rattle.flat_content.specs.Table.{with_stored};
    ghost use Rattle.flat_content.specs.Reasons.{new_tests, room_tests};

    /// Whether an id may name something new, or why it may not.
    pub(crate) fn unused(&self, c: ContentId) -> Result<(), Reason>
        ensures some { OnOk result (c.0 ≢ 0) }
        ensures absent { OnOk result (key_named self.now.names c.0 ≡ None) }
        ensures allowed { OnOk result (first_reason (new_tests self.now c.0) ≡ None) }
        ensures fault { IfErr result (λ reason. first_reason (new_tests self.now c.0)
            ≡ Some reason) }
    {
        if c.0 == 0 {
            return Err(Reason::ZeroId);
        }
        if key_of(&self.names, c.0).is_some() {
            return Err(Reason::IdInUse);
        }
        Ok(())
    }

    /// Takes the room that one content more needs. It stays until one is made, and
    /// changes nothing else.
    ///
    /// It answers `NoMemory` also where 2^32 - 1 contents were made.
    pub fn reserve(&mut self) -> Result<(), NoMemory>
        ensures ok { OnOk result (self.new ≡ record self.old { has_room = true }) }
        ensures err { OnErr result (self.new ≡ self.old) }
        ensures only { OnErr result (self.old.has_room ≡ false) }
    {
        if self.has_room {
            return Ok(());
        }
        if self.contents.len() >= u32::MAX as usize {
            return Err(NoMemory);
        }
        self.contents.reserve(1)?;
        self.viewports.reserve(1)?;
        self.names.reserve(1)?;
        self.has_room = true;
        Ok(())
    }

    /// Tests that one name more is allowed, and takes the room.
    pub(crate) fn make_room(&mut self) -> Result<(), GraphFault>
        ensures ok { OnOk result (self.new ≡ record self.old { has_room = true }) }
        ensures allowed { OnOk result (first_reason (room_tests self.old) ≡ None) }
        ensures fault { IfErr result (IsFault (room_tests self.old)) }
        ensures kept { OnErr result (self.new ≡ self.old) }
        ensures room { result ≡ Err GraphFault.Memory → self.old.has_room ≡ false }
    {
        if self.names.len() >= NAMED_MAX as usize {
            return Err(GraphFault::Bad(Reason::TooManyNamed));
        }
        if self.reserve().is_err() {
            return Err(GraphFault::Memory);
        }
        Ok(())
    }

    /// Makes a content, and names it, where there is room.
    fn put_content(&mut self, c: ContentId, stored: StoredContent) -> u32
        requires some { c.0 ≢ 0 }
        requires absent { key_named self.old.names c.0 ≡ None }
        requires room { self.old.has_room ≡ true }
        ensures serial { result ≡ length self.old.contents + 1 }
        ensures created { self.new ≡ with_stored self.old c.0 stored }
    {
        let serial = self.contents.len() + 1;
        let name = NamedNode {
            id: c.0,
            key: serial,
        };
        put_name(&mut self.names, name);
        self.contents.push_reserved(stored);
        note_use(&mut self.viewports, stored, serial as u32);
        self.has_room = false;
        serial as u32
    }

    /// Makes a content, and names it.
    pub(crate) fn add(&mut self, c: ContentId, stored: StoredContent) -> Result<u32, GraphFault>
        requires some { c.0 ≢ 0 }
        requires absent { key_named self.old.names c.0 ≡ None }
        ensures serial { IfOk result (λ serial. serial ≡ length self.old.contents + 1) }
        ensures created { OnOk result (self.new ≡ with_stored self.old c.0 stored) }
        ensures allowed { OnOk result (first_reason (room_tests self.old) ≡ None) }
        ensures fault { IfErr result (IsFault (room_tests self.old)) }
        ensures kept { OnErr result (self.new ≡ self.old) }
        ensures room { result ≡ Err GraphFault.Memory → self.old.has_room ≡ false }
    {
        self.make_room()?;
        Ok(self.put_content(c, stored))
    }
}

// What ends all names.
impl ContentTable {
    ghost use Rattle.flat_content.specs.Table.{cleared};

    /// Ends all names and the use of all viewports. The contents stay. It takes no
    /// memory.
    pub fn clear(&mut self)
        ensures { self.new ≡ cleared self.old }
    {
        self.names.clear();
        self.viewports.clear();
    }
}
