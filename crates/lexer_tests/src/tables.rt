use lexer_tables::context::{Context, after_keyword};
use lexer_tables::keywords::keyword_of;
use lexer_tables::marks::{Mark, mark_of, operator_name};
use rb_syntax::{Keyword, Punctuator};

#[test]
fn keywords_by_their_spelling(rt: HostRuntime) {
    assert_eq!(rt; keyword_of(b"do"), Some(Keyword::Do));
    assert_eq!(rt; keyword_of(b"defined?"), Some(Keyword::Defined));
    assert_eq!(rt; keyword_of(b"__ENCODING__"), Some(Keyword::EncodingName));
    assert_eq!(rt; keyword_of(b"undef"), Some(Keyword::Undef));
    assert_eq!(rt; keyword_of(b"doo"), None);
}

#[test]
fn the_longest_mark(rt: HostRuntime) {
    let compare = Mark {
        punctuator: Punctuator::Compare,
        length: 3,
    };
    assert_eq!(rt; mark_of(b'<', b'=', b'>'), Some(compare));
    let less_equal = Mark {
        punctuator: Punctuator::LessEqual,
        length: 2,
    };
    assert_eq!(rt; mark_of(b'<', b'=', b'='), Some(less_equal));
    assert_eq!(rt; mark_of(b'a', b'=', b'='), None);
    assert_eq!(rt; operator_name(b'[', b']', b'='), 3);
    assert_eq!(rt; operator_name(b'=', b'a', b'='), 0);
}

#[test]
fn contexts_behind_tokens(rt: HostRuntime) {
    assert!(rt; after_keyword(Keyword::And) == Context::Start);
    assert!(rt; !after_keyword(Keyword::And).can_end());
    assert!(rt; after_keyword(Keyword::Return).expects_value());
    assert!(rt; !after_keyword(Keyword::Return).expects_value_at(Keyword::If));
    assert!(rt; Context::DefName.after_mark(Punctuator::Dot).is_def());
}
