//! The settings of images.

/// Whether images are wanted, their page size, and an extent below which an image is always made,
/// in bytes.
#[derive(Clone, Copy, Debug, PartialEq, Eq)]
pub struct ImageSettings {
    pub enabled: bool,
    pub page_size: u64,
    pub max_image: u64,
}
