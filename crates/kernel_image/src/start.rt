// Laws on the image that formatting writes.
ghost use Rattle.kernel_image.specs.Start.{FormattedImage, FormattedRests, FormattedShows, ShowsTheStart};

/// Words that are all as formatting writes them hold the initial image, and that image shows the kernel of the
/// program at the start, for every program within the limits. The clauses are the law; the function does nothing.
pub fn formatting_shows_the_start()
    ensures image { FormattedImage }
    ensures shown { ShowsTheStart }
    ensures at_rest { FormattedRests }
    ensures formatted { FormattedShows }
{}
