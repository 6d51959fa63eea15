ghost use Rattle.std.specs.Prelude.{◌≡◌, ℕ, List};
ghost use Rattle.ficus_member_script.specs.declared.member_line.MemberLine.{MemberLine};
ghost use Rattle.ficus_member_script.specs.MemberLine.{IsFirstBadMemberLine, IsMemberScript};

/// The law that bytes are the script of one list of lines, or have one first bad line, and never both. It does nothing
/// when it runs.
pub fn one_member_script()
    ensures lines { (bytes : List ℕ) (lines others : List MemberLine) →
        IsMemberScript bytes lines → IsMemberScript bytes others → lines ≡ others }
    ensures no_line { (bytes : List ℕ) (lines : List MemberLine) (line : ℕ) →
        IsMemberScript bytes lines → IsFirstBadMemberLine bytes line → ⊥ }
    ensures bad_line { (bytes : List ℕ) (line other : ℕ) →
        IsFirstBadMemberLine bytes line → IsFirstBadMemberLine bytes other → line ≡ other }
{}
