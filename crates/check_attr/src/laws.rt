//! Laws of all scripts. A law is the contract of a function that does nothing.

ghost use Rattle.std.specs.Prelude.{◌≡◌, ℕ, List, Option, None, All};
ghost use Rattle.check_attr.specs.Script.{Record, CanBeWritten, BeginsWithRecord, script_of};
ghost use Rattle.gix_attributes.specs.EngineStates.{EngineState};
ghost use Rattle.check_attr.specs.ScriptText.{IsTextOfRecords, OneText, Writes, WritesRecords};

/// From each state a script writes exactly one text, and has one first malformed record, or none.
pub fn a_script_has_one_text()
    ensures { (s : EngineState) (number : ℕ) (script : List ℕ) → OneText s number script }
{}

/// A script begins with one record at most, so the text of a record is read as that record alone.
pub fn a_script_begins_with_one_record()
    ensures { (script rest others : List ℕ) (r other : Record) →
        BeginsWithRecord script r rest → BeginsWithRecord script other others →
        (other ≡ r) × (others ≡ rest) }
{}

/// A script is that of records, up to its end or to the first malformed one, and writes their text.
pub fn a_script_is_of_records()
    ensures holds { (s : EngineState) (number : ℕ) (script : List ℕ)
        (malformed : Option ℕ) (text : List ℕ) →
        Writes s number script malformed text → WritesRecords s number script malformed text }
    ensures only { (s : EngineState) (number : ℕ) (script : List ℕ)
        (malformed : Option ℕ) (text : List ℕ) →
        WritesRecords s number script malformed text → Writes s number script malformed text }
{}

/// Each list of records that can be written has a script. It has no malformed record, and writes
/// the text of exactly these records.
pub fn records_have_a_script()
    ensures written { (s : EngineState) (number : ℕ) (records : List Record) (text : List ℕ) →
        All CanBeWritten records → IsTextOfRecords s records text →
        Writes s number (script_of records) None text }
    ensures read { (s : EngineState) (number : ℕ) (records : List Record)
        (malformed : Option ℕ) (text : List ℕ) →
        All CanBeWritten records → Writes s number (script_of records) malformed text →
        (malformed ≡ None) × IsTextOfRecords s records text }
{}
