//! Viewports of a table. Which of them are in use is kept by rising serials.
ghost use Rattle.std.specs.Prelude.{◌≡◌, ◌+◌, ◌<◌, ◌≤◌, ◌^◌, true, false, length, Some, None, IfOk};
ghost use Rattle.std.specs.Prelude.{IfErr, OnOk, OnErr};
ghost use Rattle.flat_scene.specs.Draft.{of_serial};
ghost use Rattle.flat_scene.specs.Misuse.{first_reason};
ghost use Rattle.flat_graph.specs.Names.{key_named};

use crate::limits::is_bad_size;
use crate::stored_content::StoredContent;
use crate::table::{ContentTable, drop_use, put};
use flat_base::{ContentId, PairNo, Reason};
use flat_graph::remove_name;
use flat_scene::{GraphFault, Inset, ViewportProps};

impl ContentTable {
    ghost use Rattle.std.specs.Prelude.{unwrap_or};
    ghost use Rattle.flat_scene.specs.Misuse as misuse;
    ghost use Rattle.flat_scene.specs.declared.trees.GraphFault.{GraphFault};
    ghost use Rattle.flat_graph.specs.Reasons.{IsFault};
    ghost use Rattle.flat_content.specs.declared.stored_content.StoredContent.TheVariants.{Viewport};
    ghost use Rattle.flat_content.specs.Table.{change_named, on_viewport, pair_named};
    ghost use Rattle.flat_content.specs.Table.{viewport_released, with_stored};
    ghost use Rattle.flat_content.specs.Reasons.{sort_tests, viewport_tests, properties_tests};

    /// Tests what `create_viewport` tests, and takes the room for it: after `Ok` a
    /// `create_viewport` of that id and that size is done. It makes nothing.
    pub fn ready_viewport(&mut self, c: ContentId, w: u32, h: u32) -> Result<(), GraphFault>
        ensures ok { OnOk result (self.new ≡ record self.old { has_room = true }) }
        ensures allowed { OnOk result (first_reason (viewport_tests self.old c.0 w h) ≡ None) }
        ensures fault { IfErr result (IsFault (viewport_tests self.old c.0 w h)) }
        ensures kept { OnErr result (self.new ≡ self.old) }
    {
        if let Err(reason) = self.unused(c) {
            return Err(GraphFault::Bad(reason));
        }
        if is_bad_size(w, h) {
            return Err(GraphFault::Bad(Reason::BadSize));
        }
        self.make_room()
    }

    /// Makes a viewport at the viewport end of a pair, and names it; answers its
    /// serial number.
    ///
    /// `Bad` is ZeroId, IdInUse, BadSize or TooManyNamed. It answers `Memory` also
    /// where 2^32 - 1 contents were made, but never where there is room.
    pub fn create_viewport(
        &mut self,
        c: ContentId,
        pair: PairNo,
        props: ViewportProps,
    ) -> Result<u32, GraphFault>
        ensures serial { IfOk result (λ serial. serial ≡ length self.old.contents + 1) }
        ensures created { OnOk result (self.new ≡ with_stored self.old c.0 (Viewport pair props)) }
        ensures allowed { OnOk result (first_reason (viewport_tests self.old c.0 props.w props.h)
            ≡ None) }
        ensures fault { IfErr result (IsFault (viewport_tests self.old c.0 props.w props.h)) }
        ensures kept { OnErr result (self.new ≡ self.old) }
        ensures room { result ≡ Err GraphFault.Memory → self.old.has_room ≡ false }
    {
        if let Err(reason) = self.unused(c) {
            return Err(GraphFault::Bad(reason));
        }
        if is_bad_size(props.w, props.h) {
            return Err(GraphFault::Bad(Reason::BadSize));
        }
        self.add(c, StoredContent::Viewport(pair, props))
    }

    /// The serial of a viewport, its pair and its properties, or why an id names none.
    fn viewport(&self, c: ContentId) -> Result<(usize, PairNo, ViewportProps), Reason>
        ensures named { IfOk result (λ found. key_named self.now.names c.0 ≡ Some found.0) }
        ensures stored { IfOk result (λ found. of_serial self.now.contents found.0
            ≡ Some (Viewport found.1 found.2)) }
        ensures made { IfOk result (λ found. 1 ≤ found.0) }
        ensures within { IfOk result (λ found. found.0 ≤ length self.now.contents) }
        ensures few { IfOk result (λ found. found.0 < 2 ^ 32) }
        ensures allowed { OnOk result (first_reason (sort_tests self.now misuse.is_viewport c.0)
            ≡ None) }
        ensures fault { IfErr result (λ reason. first_reason (sort_tests self.now misuse.is_viewport
            c.0) ≡ Some reason) }
    {
        let (serial, stored) = self.find(c)?;
        match stored {
            StoredContent::Viewport(pair, props) => Ok((serial, pair, props)),
            _ => Err(Reason::WrongContent),
        }
    }

    /// The pair of a viewport.
    ///
    /// The reason is ZeroId, UnknownContent or WrongContent. It takes no memory.
    pub fn pair(&self, c: ContentId) -> Result<PairNo, Reason>
        ensures pair { IfOk result (λ pair. pair_named self.now c.0 ≡ Some pair) }
        ensures allowed { OnOk result (first_reason (sort_tests self.now misuse.is_viewport c.0)
            ≡ None) }
        ensures fault { IfErr result (λ reason. first_reason (sort_tests self.now misuse.is_viewport
            c.0) ≡ Some reason) }
    {
        Ok(self.viewport(c)?.1)
    }

    /// Sets a viewport's logical size, and its inset where one is given.
    ///
    /// The reason is ZeroId, UnknownContent, WrongContent or BadSize. It takes no
    /// memory.
    pub fn set_viewport_properties(
        &mut self,
        c: ContentId,
        w: u32,
        h: u32,
        inset: Option<Inset>,
    ) -> Result<(), Reason>
        ensures set { OnOk result (self.new
            ≡ change_named self.old c.0 (on_viewport (λ props. record
            { w = w; h = h; inset = unwrap_or inset props.inset }))) }
        ensures allowed { OnOk result (first_reason (properties_tests self.old c.0 w h) ≡ None) }
        ensures fault { IfErr result (λ reason. first_reason (properties_tests self.old c.0 w h)
            ≡ Some reason) }
        ensures kept { OnErr result (self.new ≡ self.old) }
    {
        let (serial, pair, props) = self.viewport(c)?;
        if is_bad_size(w, h) {
            return Err(Reason::BadSize);
        }
        let inset = inset.unwrap_or(props.inset);
        let changed = ViewportProps { w, h, inset };
        put(
            &mut self.contents,
            serial,
            StoredContent::Viewport(pair, changed),
        );
        Ok(())
    }

    /// Ends a viewport's name and its use; answers its serial number.
    ///
    /// The reason is ZeroId, UnknownContent or WrongContent. It takes no memory.
    pub fn release_viewport(&mut self, c: ContentId) -> Result<u32, Reason>
        ensures serial { IfOk result (λ serial. key_named self.old.names c.0 ≡ Some serial) }
        ensures released { OnOk result (self.new ≡ viewport_released self.old c.0) }
        ensures allowed { OnOk result (first_reason (sort_tests self.old misuse.is_viewport c.0)
            ≡ None) }
        ensures fault { IfErr result (λ reason. first_reason (sort_tests self.old misuse.is_viewport
            c.0) ≡ Some reason) }
        ensures kept { OnErr result (self.new ≡ self.old) }
    {
        let serial = self.viewport(c)?.0 as u32;
        remove_name(&mut self.names, c.0);
        drop_use(&mut self.viewports, serial);
        Ok(serial)
    }
}
