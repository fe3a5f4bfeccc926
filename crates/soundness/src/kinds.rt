// The records that have places in the book, and the name of each one's table in the definitions.
ghost use Rattle.std.specs.Prelude.{◌≡◌, refl};
ghost use Rattle.soundness.specs.Kind.{Kind};
ghost use Rattle.soundness.specs.Kinds.{table_of};

use places::{Period, RestrictionType, Row, Rule};

pub trait Placed: places::Place {
    ghost kind: { Kind };

    ghost started: { Self.START ≡ (table_of kind).start };

    ghost wide: { Self.WIDTH ≡ (table_of kind).width };

    ghost many: { Self.PLACES ≡ (table_of kind).places };

    ghost few: { Self.QUOTA ≡ (table_of kind).quota };
}

impl Placed for RestrictionType {
    ghost kind = { Kind.Types };

    ghost started = { refl };

    ghost wide = { refl };

    ghost many = { refl };

    ghost few = { refl };
}

impl Placed for Rule {
    ghost kind = { Kind.Rules };

    ghost started = { refl };

    ghost wide = { refl };

    ghost many = { refl };

    ghost few = { refl };
}

impl Placed for Row {
    ghost kind = { Kind.Rows };

    ghost started = { refl };

    ghost wide = { refl };

    ghost many = { refl };

    ghost few = { refl };
}

impl Placed for Period {
    ghost kind = { Kind.Periods };

    ghost started = { refl };

    ghost wide = { refl };

    ghost many = { refl };

    ghost few = { refl };
}
