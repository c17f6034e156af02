// The laws of sign tables, as a test that is computed.
ghost use Rattle.signs_tests.specs.Broken.{EachLawBroken, LawfulTables};

// Small tables that break one law each fail the test; the empty table and others that keep to all pass it.
fn laws_are_tested()
    ensures broken { EachLawBroken }
    ensures kept { LawfulTables }
{}

#[test]
fn broken_laws() {
    laws_are_tested();
}
