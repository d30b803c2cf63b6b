//! Each text spells one expression, one statement and one list of statements at most.
ghost use Rattle.fb_grammar.specs.{Form.{Spells, many}, declared.lexeme.Lexeme.{Lexeme}};
ghost use Rattle.fb_structured_text.specs.{Expression.{expression}, Statement.{statement}};
ghost use Rattle.fb_tree.specs.{Expression.{Expression}, Statement.{Statement}};
ghost use Rattle.std.specs.Prelude.{◌≡◌, ℕ, List};

/// At each level tokens spell one expression at most.
pub fn one_expression()
    ensures { (level : ℕ) (tokens : List Lexeme) (a b : Expression)
        → Spells (expression level) tokens a → Spells (expression level) tokens b → a ≡ b }
{}

/// At each level tokens spell one statement at most, and one list of statements at most.
pub fn one_statement()
    ensures single { (level : ℕ) (tokens : List Lexeme) (a b : Statement)
        → Spells (statement level) tokens a → Spells (statement level) tokens b → a ≡ b }
    ensures several { (level : ℕ) (tokens : List Lexeme) (a b : List Statement)
        → Spells (many (statement level)) tokens a → Spells (many (statement level)) tokens b
        → a ≡ b }
{}
