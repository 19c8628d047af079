//! Laws of the names that a template needs.
ghost use Rattle.std.specs.Prelude.{◌≡◌, All, map};
ghost use Rattle.minijinja_meta.specs.Mentions.{Way, free, in_order, names_of, nested_names, plain_names};
ghost use Rattle.minijinja_meta.specs.Segments.{HasNoDot, before_dot, first_segment, joined, nested_segments};

/// The first segments of the nested names are the plain names: as lists of segments always, and as
/// texts where no name has a dot.
pub fn first_segments_are_plain()
    ensures segments { (w : Way) → in_order (map first_segment (nested_segments w)) ≡ plain_names w }
    ensures written { (w : Way) → in_order (map joined (nested_segments w)) ≡ nested_names w }
    ensures texts { (w : Way) → All HasNoDot (names_of (free w)) → in_order
        (map before_dot (nested_names w)) ≡ plain_names w }
{}
