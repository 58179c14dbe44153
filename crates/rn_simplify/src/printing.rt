// The text of a canonical grammar (compact syntax, section 2, topLevel).
ghost use Rattle.std.specs.Prelude.{chars, string_bytes, codes, IfOk, IfErr};
ghost use Rattle.rn_pattern.specs.View.{pattern_view};
ghost use Rattle.rn_assemble.specs.Renamed.{IsOfKnownUris};
ghost use Rattle.rn_assemble.specs.ShortTexts.{IsKnown, IsTable, long_grammar, short_texts};
ghost use Rattle.rn_simplify.specs.NormalView.{definitions_view, normal_view};
ghost use Rattle.rn_simplify.specs.Spelling.{definition_line, definition_lines, identifier, keyword, defined_as};
ghost use Rattle.rn_simplify.specs.Printing.{IsPrinted, IsUnprinted};
ghost use Rattle.rn_simplify.specs.ReadBack.{IsReadBack};
ghost use Rattle.rn_simplify.specs.inside.Writes.{prefixes_view, Writes};

use crate::declared_prefixes::Prefixes;
use crate::normal::Normal;
use crate::pattern_text::write_pattern;
use crate::writer::Writer;
use rn_assemble::{Refusal, ShortUris};
use rn_pattern::Pattern;
use std::alloc::Global;

/// The one text of a canonical grammar: the declarations of its prefixes, its start, and its definitions in the order
/// of their names, each on a line of its own. `OutputTooLarge` where the text would have more than
/// [`rn_modset::MAX_TEXT`] bytes, else `OutputTooDeep` where more than [`rn_syntax::MAX_OPEN`] of its brackets would be
/// open at once; brackets in literals don't count. A text is read back as the grammar, its `?`, `*` and `mixed` opened
/// (compact syntax, section 2; RELAX NG 2001, 4.13 to 4.15).
pub fn print(alloc: Global, normal: &Normal) -> Result<String, Refusal>
    ensures ok { IfOk result (λ text. IsPrinted (normal_view normal.now) (string_bytes text)) }
    ensures err { IfErr result (IsUnprinted (normal_view normal.now)) }
    ensures read_back { IfOk result (λ text. ∥ IsReadBack (normal_view normal.now) ∥₁) }
{
    print_long(alloc, normal, &ShortUris::none(alloc))
}

/// The one text of a canonical grammar with short texts, as if it had the URIs in their place: the declarations of its
/// prefixes are of the URIs (compact syntax, section 2, decl). `OutputTooLarge` where the text
/// would have more than [`rn_modset::MAX_TEXT`] bytes, with the URIs at their length; else `OutputTooDeep` where more
/// than [`rn_syntax::MAX_OPEN`] of its brackets would be open at once.
pub fn print_long(alloc: Global, normal: &Normal, uris: &ShortUris) -> Result<String, Refusal>
    requires table { IsTable (short_texts uris.now) }
    requires known { IsOfKnownUris (IsKnown (short_texts uris.now)) (normal_view normal.now) }
    ensures ok { IfOk result (λ text. IsPrinted
        (long_grammar (short_texts uris.now) (normal_view normal.now)) (string_bytes text)) }
    ensures err { IfErr result (IsUnprinted
        (long_grammar (short_texts uris.now) (normal_view normal.now))) }
{
    let prefixes = Prefixes::of(alloc, normal)?;
    let mut writer = Writer::new(alloc);
    prefixes.write_declarations(&mut writer, uris);
    write_start(&mut writer, &prefixes, &normal.start);
    write_definitions(&mut writer, &prefixes, normal.defs.as_slice());
    writer.finish()
}

fn write_start(writer: &mut Writer, prefixes: &Prefixes, start: &Pattern)
    ensures { Writes (definition_line (prefixes_view prefixes.now) (keyword (codes "start"))
        (pattern_view start.now)) writer.old writer.new }
{
    writer.put("start");
    write_body(writer, prefixes, start);
}

fn write_definitions(writer: &mut Writer, prefixes: &Prefixes, defs: &[(String, Pattern)])
    ensures { Writes (definition_lines (prefixes_view prefixes.now)
        (definitions_view defs.now)) writer.old writer.new }
{
    for (name, body) in defs {
        write_definition(writer, prefixes, name, body);
    }
}

/// Writes the line of a definition. Does nothing once the writer has stopped.
#[inline(always)]
fn write_definition(writer: &mut Writer, prefixes: &Prefixes, name: &str, body: &Pattern)
    ensures { Writes (definition_line (prefixes_view prefixes.now) (identifier (chars name.now))
        (pattern_view body.now)) writer.old writer.new }
{
    if writer.stopped.is_some() {
        return;
    }
    writer.put_identifier(name);
    write_body(writer, prefixes, body);
}

/// Writes what a name is defined as, and the end of the line.
#[inline(always)]
fn write_body(writer: &mut Writer, prefixes: &Prefixes, body: &Pattern)
    ensures { Writes (defined_as (prefixes_view prefixes.now)
        (pattern_view body.now)) writer.old writer.new }
{
    writer.put(" = ");
    write_pattern(writer, prefixes, body);
    writer.put("\n");
}
