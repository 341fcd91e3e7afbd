//! Laws of the definitions, each the contract of a function that does nothing.

ghost use Rattle.std.specs.Prelude.{◌≡◌, ◌↔◌, ◌<◌, ◌≤◌, ◌+◌, ◌^◌, ◌∷◌, [], List, ℕ, true, false, Ok, Some, length, codes, decimal, encode_utf8_all};
ghost use Rattle.std.specs.List.{AllByRecursion};
ghost use Rattle.std.specs.Str.Parse.{digits_value};
ghost use Rattle.braid_shelf.specs.Lists.{SpellsList, count_member, AreDigits};
ghost use Rattle.braid_ids.specs.Identifiers.{IsIdentifier, spelled_id, spelled_ids};
ghost use Rattle.braid_ids.specs.Frontiers.{IsRising};
ghost use Rattle.braid_change.specs.declared.patch.Patch.{Patch};
ghost use Rattle.braid_change.specs.Updates.{UpdateView, IsBuilt};
ghost use Rattle.braid_change.specs.Spellings.{range_text};
ghost use Rattle.braid_change.specs.RangeForms.{IsRange, IsRangeFault};
ghost use Rattle.braid_change.specs.declared.range.RangeFault.TheVariants.{Unit as OtherUnit};
ghost use Rattle.braid_fields.specs.declared.range.TextRange.{TextRange};
ghost use Rattle.braid_fields.specs.declared.plan.Plan.{Plan};
ghost use Rattle.braid_fields.specs.declared.plan.PatchPlan.{PatchPlan};
ghost use Rattle.braid_fields.specs.declared.parts.Parts.{Parts};
ghost use Rattle.braid_fields.specs.Lines.{IsLineEnd, is_empty_line};
ghost use Rattle.braid_fields.specs.Fields.{Field, IsFieldLine, field_of};
ghost use Rattle.braid_fields.specs.Statuses.{IsStatusLine, BeginsStatus, is_status, is_good_status};
ghost use Rattle.braid_fields.specs.Values.{SpellsStrings, strings_in_value, count_in_value, length_in_value, has_other_unit, range_in_value};
ghost use Rattle.braid_fields.specs.Table.{judge_head, judge_put, judge_patch};
ghost use Rattle.braid_fields.specs.Canonical.{version_line, parents_line, patches_line, length_line, range_line, head_fields, patch_fields, update_plan, plan_of_patch};
ghost use Rattle.braid_fields.specs.Limits.{IsPlanWithin, IsPatchWithin};
ghost use Rattle.braid_fields.specs.Chunks.{IsWrittenChunk, chunk, beat};

/// The test of empty lines passes exactly the two ends of a line.
pub fn empty_lines()
    ensures law { (line : List ℕ) → is_empty_line line ≡ true ↔ IsLineEnd line }
{}

/// The field that is computed of a line is the field of that line, and none is computed of another line.
pub fn one_field()
    ensures law { (line : List ℕ) (f : Field) → field_of line ≡ Some f ↔ IsFieldLine f.name f.value line }
{}

/// The tests of status lines pass exactly the lines that are taken for one, and those of its form.
pub fn status_lines()
    ensures taken { (line : List ℕ) → is_status line ≡ true ↔ BeginsStatus line }
    ensures good { (line : List ℕ) → is_good_status line ≡ true ↔ IsStatusLine line }
    ensures both { (line : List ℕ) → is_good_status line ≡ true → is_status line ≡ true }
{}

/// No line is two of these: a field line, a line that is taken for a status line, an empty line.
pub fn lines_apart()
    ensures field { (line : List ℕ) (f : Field) → field_of line ≡ Some f → is_status line ≡ false }
    ensures empty { (line : List ℕ) (f : Field) → field_of line ≡ Some f → is_empty_line line ≡ false }
    ensures status { (line : List ℕ) → is_status line ≡ true → is_empty_line line ≡ false }
{}

/// What is computed of a value is what the value is, and nothing is computed of a value that is nothing of the kind.
pub fn values()
    ensures strings { (value : List ℕ) (strings : List (List ℕ))
        → strings_in_value value ≡ Some strings ↔ SpellsStrings strings value }
    ensures count { (value : List ℕ) (n : ℕ) → count_in_value value ≡ Some n ↔ SpellsList (count_member n ∷ []) value }
    ensures length { (value : List ℕ) (n : ℕ) → length_in_value value ≡ Some n
        ↔ (AreDigits value × (n ≡ digits_value 10 value)) }
    ensures range { (value : List ℕ) (range : TextRange)
        → range_in_value value ≡ Some range ↔ IsRange value range.start range.end }
    ensures unit { (value : List ℕ) → has_other_unit value ≡ true ↔ IsRangeFault value OtherUnit }
{}

/// A plan keeps to the limits of this project, whatever its head.
pub fn plans_are_within()
    ensures head { (fs : List Field) (plan : Plan) → judge_head fs ≡ Ok plan → IsPlanWithin plan }
    ensures put { (len : ℕ) (p : Parts) (plan : Plan) → judge_put len p ≡ Ok plan → IsPlanWithin plan }
    ensures patch { (used before : ℕ) (fs : List Field) (p : PatchPlan) → judge_patch used before fs ≡ Ok p
        → IsPatchWithin used before p }
{}

/// The lines of the heads of a canonical spelling are field lines, of these names and values.
pub fn canonical_lines()
    ensures version { (id : List ℕ) → IsIdentifier id → field_of (version_line id)
        ≡ Some (record { name = codes "Version"; value = spelled_id id }) }
    ensures parents { (parents : List (List ℕ)) → AllByRecursion IsIdentifier parents
        → field_of (parents_line parents) ≡ Some (record { name = codes "Parents"; value = spelled_ids parents }) }
    ensures length { (n : ℕ) → n < 2 ^ 64 → field_of (length_line n)
        ≡ Some (record { name = codes "Content-Length"; value = decimal n }) }
    ensures patches { (n : ℕ) → n < 2 ^ 64 → field_of (patches_line n)
        ≡ Some (record { name = codes "Patches"; value = decimal n }) }
    ensures range { (start end : ℕ) → start < 2 ^ 64 → end < 2 ^ 64
        → field_of (range_line start end)
        ≡ Some (record { name = codes "Content-Range"; value = range_text start end }) }
{}

/// The heads of a canonical spelling have the plans of its update and of its patches.
pub fn canonical_heads()
    ensures head { (u : UpdateView) → IsIdentifier u.id → AllByRecursion IsIdentifier u.parents → IsRising u.parents
        → IsBuilt u.parents u.change
        → judge_head (head_fields u) ≡ Ok (update_plan u) }
    ensures patch { (used before : ℕ) (p : Patch) → before ≤ p.start → p.start ≤ p.end → p.end < 2 ^ 32
        → used + length (encode_utf8_all p.text) ≤ 1_048_576
        → judge_patch used before (patch_fields p) ≡ Ok (plan_of_patch p) }
{}

/// A chunk as it is written has the size of its data in lower-case hexadecimal digits without leading zeros, at most 16 of
/// them, CRLF, the data and CRLF. A beat is the chunk of an empty line.
pub fn chunks_are_written()
    ensures written { (content : List ℕ) → 0 < length content → length content < 2 ^ 64
        → IsWrittenChunk content (chunk content) }
    ensures beats { beat ≡ chunk (codes "\r\n") }
{}
