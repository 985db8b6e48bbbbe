// The laws of images.
ghost use Rattle.image.specs.Theorems.{OneImage, ReadsBack, OnlyImages, OneCode, WritesBack};

/// The laws are in its contract: each code has exactly one image, which is read back as that code, and only images of
/// codes are read. The function does nothing.
pub fn images_stand()
    ensures one_image { OneImage }
    ensures reads_back { ReadsBack }
    ensures only_images { OnlyImages }
    ensures one_code { OneCode }
    ensures writes_back { WritesBack }
{}
