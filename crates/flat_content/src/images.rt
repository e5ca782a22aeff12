//! Images of a table.
ghost use Rattle.std.specs.Prelude.{◌≡◌, ◌+◌, ◌≤◌, length, Some, None, IfOk, IfErr, OnOk, OnErr};
ghost use Rattle.flat_scene.specs.Draft.{of_serial};
ghost use Rattle.flat_scene.specs.Misuse.{first_reason};
ghost use Rattle.flat_graph.specs.Names.{key_named};

use crate::limits::{is_bad_image, is_bad_index, is_bad_sample, is_bad_size, whole};
use crate::stored_content::{StoredContent, StoredImage};
use crate::table::{ContentTable, put};
use flat_base::{BufferNo, ContentId, IntRect, OPACITY_MAX, Reason};
use flat_graph::remove_name;
use flat_scene::{BlendMode, GraphFault, ImageFlip};

impl ContentTable {
    ghost use Rattle.flat_scene.specs.Misuse as misuse;
    ghost use Rattle.flat_graph.specs.Reasons.{IsFault};
    ghost use Rattle.flat_content.specs.declared.stored_content.StoredContent.TheVariants.{Image};
    ghost use Rattle.flat_content.specs.Table.{change_named, new_image, on_image, released};
    ghost use Rattle.flat_content.specs.Table.{with_stored};
    ghost use Rattle.flat_content.specs.Reasons.{image_tests, sort_tests, sample_tests, size_tests};
    ghost use Rattle.flat_content.specs.Reasons.{opacity_tests};

    /// Makes an image of the buffer of an index of a collection, and names it;
    /// answers its serial number.
    ///
    /// `Bad` is ZeroId, IdInUse, BadSize, BadBuffer or TooManyNamed. It answers
    /// `Memory` also where 2^32 - 1 contents were made.
    pub fn create_image(
        &mut self,
        c: ContentId,
        buffers: BufferNo,
        index: u32,
        w: u32,
        h: u32,
    ) -> Result<u32, GraphFault>
        ensures serial { IfOk result (λ serial. serial ≡ length self.old.contents + 1) }
        ensures created { OnOk result (self.new
            ≡ with_stored self.old c.0 (new_image buffers index w h)) }
        ensures allowed { OnOk result (first_reason (image_tests self.old c.0 buffers index w h)
            ≡ None) }
        ensures fault { IfErr result (IsFault (image_tests self.old c.0 buffers index w h)) }
        ensures kept { OnErr result (self.new ≡ self.old) }
    {
        if let Err(reason) = self.unused(c) {
            return Err(GraphFault::Bad(reason));
        }
        let decl = self.buffers.get(buffers.0 as usize).copied();
        if is_bad_image(decl, w, h) {
            return Err(GraphFault::Bad(Reason::BadSize));
        }
        if is_bad_index(decl, index) {
            return Err(GraphFault::Bad(Reason::BadBuffer));
        }
        let image = StoredImage {
            buffers,
            index,
            size: (w, h),
            sample: whole(w, h),
            destination: (w, h),
            blend: BlendMode::Src,
            flip: ImageFlip::Plain,
            opacity: OPACITY_MAX,
        };
        self.add(c, StoredContent::Image(image))
    }

    /// The serial of an image and the image, or why an id names none.
    fn image(&self, c: ContentId) -> Result<(usize, StoredImage), Reason>
        ensures named { IfOk result (λ found. key_named self.now.names c.0 ≡ Some found.0) }
        ensures stored { IfOk result (λ found. of_serial self.now.contents found.0
            ≡ Some (Image found.1)) }
        ensures made { IfOk result (λ found. 1 ≤ found.0) }
        ensures within { IfOk result (λ found. found.0 ≤ length self.now.contents) }
        ensures allowed { OnOk result (first_reason (sort_tests self.now misuse.is_image c.0)
            ≡ None) }
        ensures fault { IfErr result (λ reason. first_reason (sort_tests self.now misuse.is_image
            c.0) ≡ Some reason) }
    {
        let (serial, stored) = self.find(c)?;
        match stored {
            StoredContent::Image(image) => Ok((serial, image)),
            _ => Err(Reason::WrongContent),
        }
    }

    /// Sets the part of an image that is shown.
    ///
    /// The reason is ZeroId, UnknownContent, WrongContent or BadRect. It takes no
    /// memory.
    pub fn set_image_sample_region(&mut self, c: ContentId, rect: IntRect) -> Result<(), Reason>
        ensures set { OnOk result (self.new
            ≡ change_named self.old c.0 (on_image (λ image. record image { sample = rect }))) }
        ensures allowed { OnOk result (first_reason (sample_tests self.old c.0 rect) ≡ None) }
        ensures fault { IfErr result (λ reason. first_reason (sample_tests self.old c.0 rect)
            ≡ Some reason) }
        ensures kept { OnErr result (self.new ≡ self.old) }
    {
        let (serial, image) = self.image(c)?;
        if is_bad_sample(rect, image.size.0, image.size.1) {
            return Err(Reason::BadRect);
        }
        let changed = StoredImage {
            sample: rect,
            ..image
        };
        put(&mut self.contents, serial, StoredContent::Image(changed));
        Ok(())
    }

    /// Sets the size to which an image is drawn.
    ///
    /// The reason is ZeroId, UnknownContent, WrongContent or BadSize. It takes no
    /// memory.
    pub fn set_image_destination_size(&mut self, c: ContentId, w: u32, h: u32) -> Result<(), Reason>
        ensures set { OnOk result (self.new
            ≡ change_named self.old c.0 (on_image (λ image. record image
            { destination = (w, h) }))) }
        ensures allowed { OnOk result (first_reason (size_tests self.old c.0 w h) ≡ None) }
        ensures fault { IfErr result (λ reason. first_reason (size_tests self.old c.0 w h)
            ≡ Some reason) }
        ensures kept { OnErr result (self.new ≡ self.old) }
    {
        let (serial, image) = self.image(c)?;
        if is_bad_size(w, h) {
            return Err(Reason::BadSize);
        }
        let changed = StoredImage {
            destination: (w, h),
            ..image
        };
        put(&mut self.contents, serial, StoredContent::Image(changed));
        Ok(())
    }

    /// Sets how an image is put over what lies below it.
    ///
    /// The reason is ZeroId, UnknownContent or WrongContent. It takes no memory.
    pub fn set_image_blending_function(
        &mut self,
        c: ContentId,
        blend: BlendMode,
    ) -> Result<(), Reason>
        ensures set { OnOk result (self.new
            ≡ change_named self.old c.0 (on_image (λ image. record image { blend = blend }))) }
        ensures allowed { OnOk result (first_reason (sort_tests self.old misuse.is_image c.0)
            ≡ None) }
        ensures fault { IfErr result (λ reason. first_reason (sort_tests self.old misuse.is_image
            c.0) ≡ Some reason) }
        ensures kept { OnErr result (self.new ≡ self.old) }
    {
        let (serial, image) = self.image(c)?;
        let changed = StoredImage { blend, ..image };
        put(&mut self.contents, serial, StoredContent::Image(changed));
        Ok(())
    }

    /// Mirrors an image.
    ///
    /// The reason is ZeroId, UnknownContent or WrongContent. It takes no memory.
    pub fn set_image_flip(&mut self, c: ContentId, flip: ImageFlip) -> Result<(), Reason>
        ensures set { OnOk result (self.new
            ≡ change_named self.old c.0 (on_image (λ image. record image { flip = flip }))) }
        ensures allowed { OnOk result (first_reason (sort_tests self.old misuse.is_image c.0)
            ≡ None) }
        ensures fault { IfErr result (λ reason. first_reason (sort_tests self.old misuse.is_image
            c.0) ≡ Some reason) }
        ensures kept { OnErr result (self.new ≡ self.old) }
    {
        let (serial, image) = self.image(c)?;
        let changed = StoredImage { flip, ..image };
        put(&mut self.contents, serial, StoredContent::Image(changed));
        Ok(())
    }

    /// Sets an image's own opacity, at most
    /// [`OPACITY_MAX`](flat_base::OPACITY_MAX).
    ///
    /// The reason is ZeroId, UnknownContent, WrongContent or BadOpacity. It takes
    /// no memory.
    pub fn set_image_opacity(&mut self, c: ContentId, opacity: u32) -> Result<(), Reason>
        ensures set { OnOk result (self.new
            ≡ change_named self.old c.0 (on_image (λ image. record image { opacity = opacity }))) }
        ensures allowed { OnOk result (first_reason (opacity_tests self.old c.0 opacity) ≡ None) }
        ensures fault { IfErr result (λ reason. first_reason (opacity_tests self.old c.0 opacity)
            ≡ Some reason) }
        ensures kept { OnErr result (self.new ≡ self.old) }
    {
        let (serial, image) = self.image(c)?;
        if opacity > OPACITY_MAX {
            return Err(Reason::BadOpacity);
        }
        let changed = StoredImage { opacity, ..image };
        put(&mut self.contents, serial, StoredContent::Image(changed));
        Ok(())
    }

    /// Ends an image's name. The content stays.
    ///
    /// The reason is ZeroId, UnknownContent or WrongContent. It takes no memory.
    pub fn release_image(&mut self, c: ContentId) -> Result<(), Reason>
        ensures released { OnOk result (self.new ≡ released self.old c.0) }
        ensures allowed { OnOk result (first_reason (sort_tests self.old misuse.is_image c.0)
            ≡ None) }
        ensures fault { IfErr result (λ reason. first_reason (sort_tests self.old misuse.is_image
            c.0) ≡ Some reason) }
        ensures kept { OnErr result (self.new ≡ self.old) }
    {
        self.image(c)?;
        remove_name(&mut self.names, c.0);
        Ok(())
    }
}
