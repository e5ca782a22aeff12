//! Filled rectangles of a table.
ghost use Rattle.std.specs.Prelude.{◌≡◌, ◌+◌, ◌≤◌, length, Some, None, IfOk, IfErr, OnOk, OnErr};
ghost use Rattle.flat_scene.specs.Misuse.{first_reason};
ghost use Rattle.flat_graph.specs.Names.{key_named};

use crate::limits::is_bad_size;
use crate::stored_content::{StoredContent, StoredFill, is_fill};
use crate::table::{ContentTable, put};
use flat_base::{ContentId, Reason};
use flat_graph::remove_name;
use flat_scene::GraphFault;

impl ContentTable {
    ghost use Rattle.flat_scene.specs.Misuse as misuse;
    ghost use Rattle.flat_scene.specs.declared.trees.GraphFault.{GraphFault};
    ghost use Rattle.flat_graph.specs.Reasons.{IsFault};
    ghost use Rattle.flat_content.specs.declared.stored_content.StoredContent.TheVariants.{Fill};
    ghost use Rattle.flat_content.specs.Table.{change_named, released, with_stored};
    ghost use Rattle.flat_content.specs.Reasons.{create_tests, sort_tests, solid_tests};

    /// Makes a filled rectangle, without colour and size, and names it; answers its
    /// serial number.
    ///
    /// `Bad` is ZeroId, IdInUse or TooManyNamed. It answers `Memory` also where
    /// 2^32 - 1 contents were made.
    pub fn create_fill(&mut self, c: ContentId) -> Result<u32, GraphFault>
        ensures serial { IfOk result (λ serial. serial ≡ length self.old.contents + 1) }
        ensures created { OnOk result (self.new ≡ with_stored self.old c.0 (Fill None)) }
        ensures allowed { OnOk result (first_reason (create_tests self.old c.0) ≡ None) }
        ensures fault { IfErr result (IsFault (create_tests self.old c.0)) }
        ensures kept { OnErr result (self.new ≡ self.old) }
    {
        if let Err(reason) = self.unused(c) {
            return Err(GraphFault::Bad(reason));
        }
        self.add(c, StoredContent::Fill(None))
    }

    /// The serial of a filled rectangle, or why an id names none.
    fn fill(&self, c: ContentId) -> Result<usize, Reason>
        ensures named { IfOk result (λ serial. key_named self.now.names c.0 ≡ Some serial) }
        ensures made { IfOk result (λ serial. 1 ≤ serial) }
        ensures within { IfOk result (λ serial. serial ≤ length self.now.contents) }
        ensures allowed { OnOk result (first_reason (sort_tests self.now misuse.is_fill c.0)
            ≡ None) }
        ensures fault { IfErr result (λ reason. first_reason (sort_tests self.now misuse.is_fill
            c.0) ≡ Some reason) }
    {
        let (serial, stored) = self.find(c)?;
        if !is_fill(stored) {
            return Err(Reason::WrongContent);
        }
        Ok(serial)
    }

    /// Gives a filled rectangle its colour (red, green, blue, alpha) and its size.
    ///
    /// The reason is ZeroId, UnknownContent, WrongContent or BadSize. It takes no
    /// memory.
    pub fn set_solid_fill(
        &mut self,
        c: ContentId,
        rgba: [u8; 4],
        w: u32,
        h: u32,
    ) -> Result<(), Reason>
        ensures set { OnOk result (self.new
            ≡ change_named self.old c.0 (λ _. Fill
            (Some (record { rgba = rgba; size = (w, h) })))) }
        ensures allowed { OnOk result (first_reason (solid_tests self.old c.0 w h) ≡ None) }
        ensures fault { IfErr result (λ reason. first_reason (solid_tests self.old c.0 w h)
            ≡ Some reason) }
        ensures kept { OnErr result (self.new ≡ self.old) }
    {
        let serial = self.fill(c)?;
        if is_bad_size(w, h) {
            return Err(Reason::BadSize);
        }
        let solid = StoredFill { rgba, size: (w, h) };
        put(&mut self.contents, serial, StoredContent::Fill(Some(solid)));
        Ok(())
    }

    /// Ends a filled rectangle's name. The content stays.
    ///
    /// The reason is ZeroId, UnknownContent or WrongContent. It takes no memory.
    pub fn release_filled_rect(&mut self, c: ContentId) -> Result<(), Reason>
        ensures released { OnOk result (self.new ≡ released self.old c.0) }
        ensures allowed { OnOk result (first_reason (sort_tests self.old misuse.is_fill c.0)
            ≡ None) }
        ensures fault { IfErr result (λ reason. first_reason (sort_tests self.old misuse.is_fill
            c.0) ≡ Some reason) }
        ensures kept { OnErr result (self.new ≡ self.old) }
    {
        self.fill(c)?;
        remove_name(&mut self.names, c.0);
        Ok(())
    }
}
