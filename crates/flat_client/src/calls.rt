//! The calls that edit the session's private scene. They take no handle, wait for nobody, and
//! show to others at the next entry.
ghost use Rattle.std.specs.Prelude.{slice_index};
ghost use Rattle.flat_scene.specs.declared.calls.Call.TheVariants as calls;
ghost use Rattle.flat_client.specs.Clients.{Answers, Stays};

use crate::client::Client;
use crate::error::CallError;
use flat_base::{BufferNo, ContentId, IntRect, Orientation, TransformId};
use flat_scene::{BlendMode, Call, ImageFlip, Inset, Interaction, RegionList, TransformList};

impl Client {
    /// Ends the session's view: Fuchsia's `ReleaseView`.
    pub fn release_view(&mut self) -> Result<(), CallError>
        ensures answers { Answers calls.ReleaseView self.old self.new result }
        ensures stays { Stays self.old self.new }
    {
        self.edit(Call::ReleaseView)
    }

    /// Makes a transform: Fuchsia's `CreateTransform`.
    pub fn create_transform(&mut self, t: TransformId) -> Result<(), CallError>
        ensures answers { Answers (calls.CreateTransform t) self.old self.new result }
        ensures stays { Stays self.old self.new }
    {
        self.edit(Call::CreateTransform { t })
    }

    /// Ends a transform's name: Fuchsia's `ReleaseTransform`. What the root reaches stays in the
    /// scene.
    pub fn release_transform(&mut self, t: TransformId) -> Result<(), CallError>
        ensures answers { Answers (calls.ReleaseTransform t) self.old self.new result }
        ensures stays { Stays self.old self.new }
    {
        self.edit(Call::ReleaseTransform { t })
    }

    /// Puts a transform at a place of its parent: Fuchsia's `SetTranslation`.
    pub fn set_translation(&mut self, t: TransformId, x: i32, y: i32) -> Result<(), CallError>
        ensures answers { Answers (calls.SetTranslation t x y) self.old self.new result }
        ensures stays { Stays self.old self.new }
    {
        self.edit(Call::SetTranslation { t, x, y })
    }

    /// Turns a transform: Fuchsia's `SetOrientation`.
    pub fn set_orientation(&mut self, t: TransformId, o: Orientation) -> Result<(), CallError>
        ensures answers { Answers (calls.SetOrientation t o) self.old self.new result }
        ensures stays { Stays self.old self.new }
    {
        self.edit(Call::SetOrientation { t, o })
    }

    /// Scales a transform along its own axes, in fixed point: Fuchsia's `SetScale`.
    pub fn set_scale(&mut self, t: TransformId, sx: u32, sy: u32) -> Result<(), CallError>
        ensures answers { Answers (calls.SetScale t sx sy) self.old self.new result }
        ensures stays { Stays self.old self.new }
    {
        self.edit(Call::SetScale { t, sx, sy })
    }

    /// Sets a transform's opacity, in fixed point: Fuchsia's `SetOpacity`.
    pub fn set_opacity(&mut self, t: TransformId, v: u32) -> Result<(), CallError>
        ensures answers { Answers (calls.SetOpacity t v) self.old self.new result }
        ensures stays { Stays self.old self.new }
    {
        self.edit(Call::SetOpacity { t, v })
    }

    /// Cuts a transform and all below it to a rectangle, or takes that boundary away: Fuchsia's
    /// `SetClipBoundary`.
    pub fn set_clip_boundary(
        &mut self,
        t: TransformId,
        rect: Option<IntRect>,
    ) -> Result<(), CallError>
        ensures answers { Answers (calls.SetClipBoundary t rect) self.old self.new result }
        ensures stays { Stays self.old self.new }
    {
        self.edit(Call::SetClipBoundary { t, rect })
    }

    /// Appends a transform to the children of another: Fuchsia's `AddChild`.
    pub fn add_child(&mut self, p: TransformId, k: TransformId) -> Result<(), CallError>
        ensures answers { Answers (calls.AddChild p k) self.old self.new result }
        ensures stays { Stays self.old self.new }
    {
        self.edit(Call::AddChild { p, k })
    }

    /// Takes a transform from the children of another: Fuchsia's `RemoveChild`.
    pub fn remove_child(&mut self, p: TransformId, k: TransformId) -> Result<(), CallError>
        ensures answers { Answers (calls.RemoveChild p k) self.old self.new result }
        ensures stays { Stays self.old self.new }
    {
        self.edit(Call::RemoveChild { p, k })
    }

    /// Gives a transform these children in place of those that it has: Fuchsia's
    /// `ReplaceChildren`.
    pub fn replace_children(
        &mut self,
        p: TransformId,
        children: TransformList,
    ) -> Result<(), CallError>
        ensures answers { Answers (calls.ReplaceChildren p children) self.old self.new result }
        ensures stays { Stays self.old self.new }
    {
        self.edit(Call::ReplaceChildren { p, children })
    }

    /// Makes a transform the root of the scene; 0 unsets the root: Fuchsia's
    /// `SetRootTransform`.
    pub fn set_root_transform(&mut self, t: TransformId) -> Result<(), CallError>
        ensures answers { Answers (calls.SetRootTransform t) self.old self.new result }
        ensures stays { Stays self.old self.new }
    {
        self.edit(Call::SetRootTransform { t })
    }

    /// Gives a transform its content; 0 takes it away: Fuchsia's `SetContent`.
    pub fn set_content(&mut self, t: TransformId, c: ContentId) -> Result<(), CallError>
        ensures answers { Answers (calls.SetContent t c) self.old self.new result }
        ensures stays { Stays self.old self.new }
    {
        self.edit(Call::SetContent { t, c })
    }

    /// Ends the view, all names and the root: Fuchsia's `Clear`.
    pub fn clear(&mut self) -> Result<(), CallError>
        ensures answers { Answers calls.Clear self.old self.new result }
        ensures stays { Stays self.old self.new }
    {
        self.edit(Call::Clear)
    }

    /// Replaces a transform's hit regions: Fuchsia's `SetHitRegions`.
    pub fn set_hit_regions(&mut self, t: TransformId, regions: RegionList) -> Result<(), CallError>
        ensures answers { Answers (calls.SetHitRegions t regions) self.old self.new result }
        ensures stays { Stays self.old self.new }
    {
        self.edit(Call::SetHitRegions { t, regions })
    }

    /// Replaces a transform's hit regions by one that covers its whole clip: Fuchsia's
    /// `SetInfiniteHitRegion`.
    pub fn set_infinite_hit_region(
        &mut self,
        t: TransformId,
        i: Interaction,
    ) -> Result<(), CallError>
        ensures answers { Answers (calls.SetInfiniteHitRegion t i) self.old self.new result }
        ensures stays { Stays self.old self.new }
    {
        self.edit(Call::SetInfiniteHitRegion { t, i })
    }

    /// Sets a viewport's logical size, and its inset if one is given: Fuchsia's
    /// `SetViewportProperties`.
    pub fn set_viewport_properties(
        &mut self,
        c: ContentId,
        w: u32,
        h: u32,
        inset: Option<Inset>,
    ) -> Result<(), CallError>
        ensures answers { Answers (calls.SetViewportProperties c w h inset) self.old self.new result }
        ensures stays { Stays self.old self.new }
    {
        self.edit(Call::SetViewportProperties { c, w, h, inset })
    }

    /// Ends a viewport's name and takes it from each transform that holds it: Fuchsia's
    /// `ReleaseViewport`.
    pub fn release_viewport(&mut self, c: ContentId) -> Result<(), CallError>
        ensures answers { Answers (calls.ReleaseViewport c) self.old self.new result }
        ensures stays { Stays self.old self.new }
    {
        self.edit(Call::ReleaseViewport { c })
    }

    /// Makes an image of the buffer of index `i` of a collection: Fuchsia's `CreateImage`.
    pub fn create_image(
        &mut self,
        c: ContentId,
        buffers: BufferNo,
        i: u32,
        w: u32,
        h: u32,
    ) -> Result<(), CallError>
        ensures answers { Answers (calls.CreateImage c buffers i w h) self.old self.new result }
        ensures stays { Stays self.old self.new }
    {
        self.edit(Call::CreateImage {
            c,
            buffers,
            i,
            w,
            h,
        })
    }

    /// Sets the part of an image that is shown: Fuchsia's `SetImageSampleRegion`.
    pub fn set_image_sample_region(&mut self, c: ContentId, rect: IntRect) -> Result<(), CallError>
        ensures answers { Answers (calls.SetImageSampleRegion c rect) self.old self.new result }
        ensures stays { Stays self.old self.new }
    {
        self.edit(Call::SetImageSampleRegion { c, rect })
    }

    /// Sets the size to which an image is drawn: Fuchsia's `SetImageDestinationSize`.
    pub fn set_image_destination_size(
        &mut self,
        c: ContentId,
        w: u32,
        h: u32,
    ) -> Result<(), CallError>
        ensures answers { Answers (calls.SetImageDestinationSize c w h) self.old self.new result }
        ensures stays { Stays self.old self.new }
    {
        self.edit(Call::SetImageDestinationSize { c, w, h })
    }

    /// Sets how an image is put over what lies below it: Fuchsia's `SetImageBlendMode`.
    pub fn set_image_blending_function(
        &mut self,
        c: ContentId,
        m: BlendMode,
    ) -> Result<(), CallError>
        ensures answers { Answers (calls.SetImageBlendingFunction c m) self.old self.new result }
        ensures stays { Stays self.old self.new }
    {
        self.edit(Call::SetImageBlendingFunction { c, m })
    }

    /// Mirrors an image: Fuchsia's `SetImageFlip`.
    pub fn set_image_flip(&mut self, c: ContentId, f: ImageFlip) -> Result<(), CallError>
        ensures answers { Answers (calls.SetImageFlip c f) self.old self.new result }
        ensures stays { Stays self.old self.new }
    {
        self.edit(Call::SetImageFlip { c, f })
    }

    /// Sets an image's own opacity, in fixed point: Fuchsia's `SetImageOpacity`.
    pub fn set_image_opacity(&mut self, c: ContentId, v: u32) -> Result<(), CallError>
        ensures answers { Answers (calls.SetImageOpacity c v) self.old self.new result }
        ensures stays { Stays self.old self.new }
    {
        self.edit(Call::SetImageOpacity { c, v })
    }

    /// Ends an image's name: Fuchsia's `ReleaseImage`. Transforms that hold it keep it.
    pub fn release_image(&mut self, c: ContentId) -> Result<(), CallError>
        ensures answers { Answers (calls.ReleaseImage c) self.old self.new result }
        ensures stays { Stays self.old self.new }
    {
        self.edit(Call::ReleaseImage { c })
    }

    /// Makes a filled rectangle, without colour and size: Fuchsia's `CreateFilledRect`.
    pub fn create_filled_rect(&mut self, c: ContentId) -> Result<(), CallError>
        ensures answers { Answers (calls.CreateFilledRect c) self.old self.new result }
        ensures stays { Stays self.old self.new }
    {
        self.edit(Call::CreateFilledRect { c })
    }

    /// Gives a filled rectangle its colour (red, green, blue, alpha) and its size: Fuchsia's
    /// `SetSolidFill`.
    pub fn set_solid_fill(
        &mut self,
        c: ContentId,
        rgba: [u8; 4],
        w: u32,
        h: u32,
    ) -> Result<(), CallError>
        ensures answers { Answers (calls.SetSolidFill c (slice_index rgba 0) (slice_index rgba 1)
            (slice_index rgba 2) (slice_index rgba 3) w h) self.old self.new result }
        ensures stays { Stays self.old self.new }
    {
        let [r, g, b, a] = rgba;
        self.edit(Call::SetSolidFill {
            c,
            r,
            g,
            b,
            a,
            w,
            h,
        })
    }

    /// Ends a filled rectangle's name: Fuchsia's `ReleaseFilledRect`. Transforms that hold it keep
    /// it.
    pub fn release_filled_rect(&mut self, c: ContentId) -> Result<(), CallError>
        ensures answers { Answers (calls.ReleaseFilledRect c) self.old self.new result }
        ensures stays { Stays self.old self.new }
    {
        self.edit(Call::ReleaseFilledRect { c })
    }
}
