// Laws of the text.

ghost use Rattle.std.specs.Prelude.{◌≡◌, ◌≢◌, ◌≤◌, ◌+◌, ◌-◌, ℕ, List, Ok, Err, length};
ghost use Rattle.program_law.specs.Program.{Program, IsProgram};
ghost use Rattle.certificate_law.specs.declared.Certificate.{Certificate};
ghost use Rattle.cert_fields.specs.Parts.{pieces_of};
ghost use Rattle.cert_grammar.specs.declared.kinds.CertKind.{CertKind};
ghost use Rattle.cert_grammar.specs.declared.kinds.CertKind.TheVariants as kinds;
ghost use Rattle.cert_text_law.specs.Fronts.{Begins, IsFront, first_lines};
ghost use Rattle.cert_grammar.specs.Text.{certificate_text};
ghost use Rattle.cert_text_law.specs.Reading.{read_of};
ghost use Rattle.cert_text_law.specs.Items.{text_items};
ghost use Rattle.cert_text_law.specs.CertificateItems.{certificate_items};
ghost use Rattle.cert_grammar.specs.Writable.{IsWritable, NumbersFit};

/// The text of a certificate is read as that certificate, whatever number its first line has. So it is the text of no other. And a
/// text that is read as a certificate is the text of that one, and its lines are those of the certificate, item by item.
pub fn texts_are_read_back()
    ensures back { (p : Program) (c : Certificate) (line : ℕ) → IsProgram p → IsWritable p c → NumbersFit c →
        read_of p line (certificate_text p c) ≡ Ok c }
    ensures one { (p : Program) (c other : Certificate) → IsProgram p → IsWritable p c → NumbersFit c →
        IsWritable p other → NumbersFit other → certificate_text p c ≡ certificate_text p other → c ≡ other }
    ensures text { (p : Program) (line : ℕ) (text : List ℕ) (c : Certificate) → read_of p line text ≡ Ok c →
        certificate_text p c ≡ text }
    ensures writable { (p : Program) (line : ℕ) (text : List ℕ) (c : Certificate) → read_of p line text ≡ Ok c →
        IsWritable p c }
    ensures items { (p : Program) (line : ℕ) (text : List ℕ) (c : Certificate) → read_of p line text ≡ Ok c →
        text_items p text ≡ certificate_items c }
{}

/// The line at which a text leaves the grammar is the first that no certificate's text begins with: the lines before it are
/// the front of one's text, and with it they are the front of none. At `CertEnd` there is no such line: all lines of the
/// text, that is all that end with a line feed, are the front of one's text.
pub fn faults_leave_the_grammar()
    ensures within { (p : Program) (line : ℕ) (text : List ℕ) (at : ℕ) (kind : CertKind) → read_of p line text ≡ Err (at, kind) →
        line ≤ at }
    ensures before { (p : Program) (line : ℕ) (text : List ℕ) (at : ℕ) (kind : CertKind) → read_of p line text ≡ Err (at, kind) →
        IsFront p (first_lines (at - line) text) }
    ensures with { (p : Program) (line : ℕ) (text : List ℕ) (at : ℕ) (kind : CertKind) (c : Certificate) → IsProgram p →
        read_of p line text ≡ Err (at, kind) → kind ≢ kinds.CertEnd → IsWritable p c → NumbersFit c →
        Begins p c (first_lines (at - line + 1) text) → ⊥ }
    ensures end { (p : Program) (line : ℕ) (text : List ℕ) (at : ℕ) → read_of p line text ≡ Err (at, kinds.CertEnd) →
        length (pieces_of text) ≤ at - line + 1 }
{}
