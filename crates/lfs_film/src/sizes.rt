//! The numbers and texts of the profile that contracts cite by name: laws, which do nothing.

ghost use Rattle.std.specs.Prelude.{◌≡◌, codes, nat_eq, true};
ghost use Rattle.std.specs.List.{starts_with};
ghost use Rattle.lfs_film.specs.declared.film.TheConstants.{FRAMES_MAX};
ghost use Rattle.lfs_film.specs.declared.page.TheConstants.{BODY, CODE, FRAMES, FULL, HEAD, TAIL};

/// The constant that contracts cite by name is this number.
pub fn sizes()
    ensures frames { FRAMES_MAX ≡ 19000000 }
{}

/// The page's texts: it begins and ends as a page, its style ends before its body, its frames stand in an element of their
/// own, which ends before the script, and of a film that is full it says so.
pub fn texts()
    ensures begins { starts_with nat_eq HEAD.now (codes "<!doctype html>\n<html ") ≡ true }
    ensures styled { starts_with nat_eq BODY.now (codes "</style></head><body>\n") ≡ true }
    ensures full { FULL.now
        ≡ codes "<p><b>No more frames are kept behind 19,000,000 bytes: the talk went on.</b></p>\n" }
    ensures opens { starts_with nat_eq FRAMES.now (codes "<script id=") ≡ true }
    ensures closes { CODE.now ≡ codes "</script>\n<script>\n" }
    ensures ends { TAIL.now ≡ codes "</script></body></html>\n" }
{}
