ghost use Rattle.std.specs.Prelude.{◌≡◌, List};
ghost use Rattle.ficus_words.specs.Grammar.{Gives, Text, Use};
ghost use Rattle.ficus_words.specs.MemberMode.{AreMemberWords};
ghost use Rattle.ficus_words.specs.Mode.{AreWords};
ghost use Rattle.ficus_words.specs.declared.member_mode.MemberMode.{MemberMode};
ghost use Rattle.ficus_words.specs.declared.mode.Mode.{Mode};

/// The law that words are those of one mode at most. It does nothing when it runs.
pub fn one_mode()
    ensures { (words : List Text) (mode other : Mode) → AreWords words mode → AreWords words other → mode ≡ other }
{}

/// The law that words are those of one mode of a member at most. It does nothing when it runs.
pub fn one_member_mode()
    ensures { (words : List Text) (mode other : MemberMode) → AreMemberWords words mode → AreMemberWords words other →
        mode ≡ other }
{}

/// The law that no words are both those of a mode and those of a mode of a member. It does nothing when it runs.
pub fn one_call()
    ensures { (words : List Text) (mode : Mode) (member : MemberMode) → AreWords words mode →
        AreMemberWords words member → ⊥ }
{}

/// The law that words give one list of uses at most: of each name one value, in one order. It does nothing when it
/// runs.
pub fn one_use()
    ensures { (words : List Text) (one other : List Use) → Gives words one → Gives words other → one ≡ other }
{}
