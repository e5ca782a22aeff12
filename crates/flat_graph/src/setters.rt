//! What a transform is: where it stands, its clip, opacity, hit regions and content.
ghost use Rattle.std.specs.Prelude.{◌≡◌, Some, None, IfOk, IfErr, OnOk, OnErr};
ghost use Rattle.flat_graph.specs.Names.{key_named};
ghost use Rattle.flat_graph.specs.State.{IsKept};

use crate::graph::Graph;
use crate::nodes::drop_held;
use crate::shapes::{has_bad_area, has_bad_scale, is_bad_area};
use flat_base::{HIT_REGIONS_MAX, IntRect, OPACITY_MAX, Orientation, Reason, TransformId};
use flat_scene::{GraphFault, HeldContent, HitRegion, RegionList};

impl Graph {
    ghost use Rattle.flat_scene.specs.Misuse.{first_reason};
    ghost use Rattle.flat_graph.specs.Reasons.{name_tests, scale_tests, opacity_tests, clip_tests};
    ghost use Rattle.flat_graph.specs.Reasons.{hits_tests, IsMisuse};
    ghost use Rattle.flat_graph.specs.State.{change_named, without_held};

    /// Puts a transform at a place of its parent.
    ///
    /// `Bad` is ZeroId or UnknownTransform. It takes no memory.
    pub fn set_translation(&mut self, t: TransformId, x: i32, y: i32) -> Result<(), GraphFault>
        ensures set { OnOk result (self.new
            ≡ change_named self.old t.0 (λ node. record node { place = (x, y) })) }
        ensures allowed { OnOk result (first_reason (name_tests self.old t.0) ≡ None) }
        ensures fault { IfErr result (IsMisuse (name_tests self.old t.0)) }
        ensures kept { OnErr result (self.new ≡ self.old) }
    {
        let key = self.key(t)?;
        if let Some(node) = self.nodes.get_mut(key) {
            node.place = (x, y);
        }
        Ok(())
    }

    /// Turns a transform.
    ///
    /// `Bad` is ZeroId or UnknownTransform. It takes no memory.
    pub fn set_orientation(&mut self, t: TransformId, turn: Orientation) -> Result<(), GraphFault>
        ensures set { OnOk result (self.new
            ≡ change_named self.old t.0 (λ node. record node { turn = turn })) }
        ensures allowed { OnOk result (first_reason (name_tests self.old t.0) ≡ None) }
        ensures fault { IfErr result (IsMisuse (name_tests self.old t.0)) }
        ensures kept { OnErr result (self.new ≡ self.old) }
    {
        let key = self.key(t)?;
        if let Some(node) = self.nodes.get_mut(key) {
            node.turn = turn;
        }
        Ok(())
    }

    /// Scales a transform along its own axes, each 1 to
    /// [`SCALE_MAX`](flat_base::SCALE_MAX).
    ///
    /// `Bad` is ZeroId, UnknownTransform or BadScale. It takes no memory.
    pub fn set_scale(&mut self, t: TransformId, x: u32, y: u32) -> Result<(), GraphFault>
        ensures set { OnOk result (self.new
            ≡ change_named self.old t.0 (λ node. record node { scale = (x, y) })) }
        ensures allowed { OnOk result (first_reason (scale_tests self.old t.0 x y) ≡ None) }
        ensures fault { IfErr result (IsMisuse (scale_tests self.old t.0 x y)) }
        ensures kept { OnErr result (self.new ≡ self.old) }
    {
        let key = self.key(t)?;
        if has_bad_scale(x, y) {
            return Err(GraphFault::Bad(Reason::BadScale));
        }
        if let Some(node) = self.nodes.get_mut(key) {
            node.scale = (x, y);
        }
        Ok(())
    }

    /// Sets a transform's opacity, at most
    /// [`OPACITY_MAX`](flat_base::OPACITY_MAX).
    ///
    /// `Bad` is ZeroId, UnknownTransform or BadOpacity. It takes no memory.
    pub fn set_opacity(&mut self, t: TransformId, opacity: u32) -> Result<(), GraphFault>
        ensures set { OnOk result (self.new
            ≡ change_named self.old t.0 (λ node. record node { opacity = opacity })) }
        ensures allowed { OnOk result (first_reason (opacity_tests self.old t.0 opacity) ≡ None) }
        ensures fault { IfErr result (IsMisuse (opacity_tests self.old t.0 opacity)) }
        ensures kept { OnErr result (self.new ≡ self.old) }
    {
        let key = self.key(t)?;
        if opacity > OPACITY_MAX {
            return Err(GraphFault::Bad(Reason::BadOpacity));
        }
        if let Some(node) = self.nodes.get_mut(key) {
            node.opacity = opacity;
        }
        Ok(())
    }

    /// Cuts a transform and all below it to a rectangle of its own space, or
    /// takes that boundary away.
    ///
    /// `Bad` is ZeroId, UnknownTransform or BadRect. It takes no memory.
    pub fn set_clip(&mut self, t: TransformId, clip: Option<IntRect>) -> Result<(), GraphFault>
        ensures set { OnOk result (self.new
            ≡ change_named self.old t.0 (λ node. record node { clip = clip })) }
        ensures allowed { OnOk result (first_reason (clip_tests self.old t.0 clip) ≡ None) }
        ensures fault { IfErr result (IsMisuse (clip_tests self.old t.0 clip)) }
        ensures kept { OnErr result (self.new ≡ self.old) }
    {
        let key = self.key(t)?;
        if is_bad_area(clip) {
            return Err(GraphFault::Bad(Reason::BadRect));
        }
        if let Some(node) = self.nodes.get_mut(key) {
            node.clip = clip;
        }
        Ok(())
    }

    /// The key of a transform that may have these hit regions, or why there is none.
    ///
    /// `Bad` is ZeroId, UnknownTransform, BadRect or TooManyRegions. It takes no memory.
    pub fn hits_key(&self, t: TransformId, regions: &[HitRegion]) -> Result<usize, GraphFault>
        ensures named { IfOk result (λ key. key_named self.now.names t.0 ≡ Some key) }
        ensures kept { IfOk result (λ key. IsKept self.now.nodes key) }
        ensures allowed { OnOk result (first_reason (hits_tests self.now t.0 regions.now) ≡ None) }
        ensures fault { IfErr result (IsMisuse (hits_tests self.now t.0 regions.now)) }
    {
        let key = self.key(t)?;
        if has_bad_area(regions) {
            return Err(GraphFault::Bad(Reason::BadRect));
        }
        if regions.len() > HIT_REGIONS_MAX as usize {
            return Err(GraphFault::Bad(Reason::TooManyRegions));
        }
        Ok(key)
    }

    /// Replaces a transform's hit regions.
    ///
    /// `Bad` is ZeroId, UnknownTransform, BadRect or TooManyRegions. It takes no memory.
    pub fn set_hits(&mut self, t: TransformId, regions: RegionList) -> Result<(), GraphFault>
        ensures set { OnOk result (self.new
            ≡ change_named self.old t.0 (λ node. record node { hits = Some regions })) }
        ensures allowed { OnOk result (first_reason (hits_tests self.old t.0 regions) ≡ None) }
        ensures fault { IfErr result (IsMisuse (hits_tests self.old t.0 regions)) }
        ensures kept { OnErr result (self.new ≡ self.old) }
    {
        let key = self.hits_key(t, regions.as_slice())?;
        if let Some(node) = self.nodes.get_mut(key) {
            node.hits = Some(regions);
        }
        Ok(())
    }

    /// Gives a transform its content, or takes it away. The graph knows contents
    /// by these numbers alone.
    ///
    /// `Bad` is ZeroId or UnknownTransform. It takes no memory.
    pub fn set_content(
        &mut self,
        t: TransformId,
        held: Option<HeldContent>,
    ) -> Result<(), GraphFault>
        ensures set { OnOk result (self.new
            ≡ change_named self.old t.0 (λ node. record node { content = held })) }
        ensures allowed { OnOk result (first_reason (name_tests self.old t.0) ≡ None) }
        ensures fault { IfErr result (IsMisuse (name_tests self.old t.0)) }
        ensures kept { OnErr result (self.new ≡ self.old) }
    {
        let key = self.key(t)?;
        if let Some(node) = self.nodes.get_mut(key) {
            node.content = held;
        }
        Ok(())
    }

    /// Takes the content of that number from each transform that holds it. It
    /// takes no memory.
    pub fn drop_content(&mut self, serial: u32)
        ensures { self.new ≡ without_held self.old serial }
    {
        drop_held(&mut self.nodes, serial);
    }
}
