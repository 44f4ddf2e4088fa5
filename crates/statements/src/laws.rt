//! Laws of statements, for every list of bytes. None does anything.
ghost use Rattle.std.specs.Prelude.{◌≡◌, ℕ, List, length};
ghost use Rattle.message_defs.specs.Spelling.{IsStatement, body, spelling};
ghost use Rattle.message_defs.specs.Statements.{Statement};

/// Two statements in range with one spelling are one statement.
pub fn spelling_determines_statement()
    ensures { (a b : Statement) → IsStatement a → IsStatement b → spelling a ≡ spelling b → a ≡ b }
{}

/// What is signed determines the group, the signer and the statement: bodies of groups of 16 bytes and of statements
/// in range are equal only where these are.
pub fn body_determines_statement()
    ensures { (g h : List ℕ) (p q : ℕ) (a b : Statement) → length g ≡ 16 → length h ≡ 16 → IsStatement a → IsStatement b
        → body g p a ≡ body h q b → (g ≡ h) × (p ≡ q) × (a ≡ b) }
{}
