// The lexer of book lines: any bytes have tokens, and each token is a part of its line.
#![tactic(auto)]

pub mod reader;
mod signs;
pub mod token;

#[cfg(test)]
mod tests {
    use super::reader::Reader;
    use super::token::Token;

    #[test]
    fn walks_a_line(rt: HostRuntime) {
        let mut reader = Reader::new(b" 12x-> ");
        assert!(rt; matches!(reader.next(), Some(Token::Number(b"12"))));
        assert!(rt; matches!(reader.next(), Some(Token::Name(b"x"))));
        assert!(rt; matches!(reader.next(), Some(Token::Sign(b"->"))));
        assert!(rt; reader.next().is_none());
    }
}
