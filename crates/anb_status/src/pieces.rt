//! Texts in pieces, which lie elsewhere.
ghost use Rattle.std.specs.Prelude.{◌≡◌, ◌++◌};
ghost use Rattle.anb_status.specs.Pieces.{said};

/// A text in at most seven pieces; the last ones may be empty.
pub type Pieces<'a> = (
    &'a str,
    &'a str,
    &'a str,
    &'a str,
    &'a str,
    &'a str,
    &'a str,
);

pub(crate) fn one<'a>(a: &'a str) -> Pieces<'a>
    ensures { said result ≡ a.now }
{
    two(a, "")
}

pub(crate) fn two<'a>(a: &'a str, b: &'a str) -> Pieces<'a>
    ensures { said result ≡ a.now ++ b.now }
{
    three(a, b, "")
}

pub(crate) fn three<'a>(a: &'a str, b: &'a str, c: &'a str) -> Pieces<'a>
    ensures { said result ≡ a.now ++ (b.now ++ c.now) }
{
    four(a, b, c, "")
}

pub(crate) fn four<'a>(a: &'a str, b: &'a str, c: &'a str, d: &'a str) -> Pieces<'a>
    ensures { said result ≡ a.now ++ (b.now ++ (c.now ++ d.now)) }
{
    five(a, b, c, d, "")
}

pub(crate) fn five<'a>(a: &'a str, b: &'a str, c: &'a str, d: &'a str, e: &'a str) -> Pieces<'a>
    ensures { said result ≡ a.now ++ (b.now ++ (c.now ++ (d.now ++ e.now))) }
{
    seven(a, b, c, d, e, "", "")
}

pub(crate) fn seven<'a>(
    a: &'a str,
    b: &'a str,
    c: &'a str,
    d: &'a str,
    e: &'a str,
    f: &'a str,
    g: &'a str,
) -> Pieces<'a>
    ensures { said result ≡ a.now ++ (b.now ++ (c.now ++ (d.now ++ (e.now ++ (f.now ++ g.now))))) }
{
    (a, b, c, d, e, f, g)
}
