//! Copy-on-write images of memories for `init_plan`: whether data segments become images, and the
//! bytes of these.
//!
//! `plan_images` returns images exactly where the image rule of `replay_spec` holds. They have the
//! bytes that the segments leave. `TooLarge` is returned only where the images and the other bytes
//! pass 32 bits. `too_large_at` then names the first memory with whose image they do.
//!
//! ```
//! let settings = ImageSettings { enabled: true, page_size: 4096, max_image: 1_048_576 };
//! let images = plan_images(alloc, settings, &memories, 0, &segments, 0)?;
//! let memory = too_large_at(alloc, settings, &memories, 0, &segments, 0)?;
//! // [16, 17) of segment 0, [17, 18) of segment 1, [18, 19) of segment 0
//! let ranges = written_ranges(alloc, &[(16, 3), (17, 1)])?;
//! ```
//!
//! Overlapping segments are swept in one pass, with a heap of the active ones. Images have at most
//! twice the module's bytes, and `max_image` bytes and two pages for each defined memory.
//!
//! Read on: `rule`, `written`, `image`; `replay_spec/specs/Images.antt` has the rule, and
//! `specs/Past.antt` where images are too large.
#![tactic(auto)]

mod error;
mod fill;
mod image;
mod laws;
mod layout;
mod place;
mod placed_segment;
mod plan;
mod rule;
mod settings;
mod span;
mod sweep;
mod written;
mod zeros;

pub use error::ImageError;
pub use image::Image;
pub use laws::written_ranges_law;
pub use plan::{plan_images, too_large_at};
pub use settings::ImageSettings;
pub use written::{Written, written_ranges};
