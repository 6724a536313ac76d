//! Tests of `sessions`, at sessions that are numbers.
#![tactic(auto)]

#[cfg(test)]
mod tests {
    use fdo_msgs::Token;
    use sessions::Sessions;
    use std::test::Fail;

    /// The token of a number.
    fn token(rt: &HostRuntime, number: u16) -> Result<Token, Fail> {
        let bytes = number.to_be_bytes();
        let bytes = Vec::from_slice(rt.alloc(), bytes.as_slice())?;
        match Token::new(bytes) {
            Some(token) => Ok(token),
            None => unreachable!(),
        }
    }

    /// 256 sessions, of which each is the number of its token.
    fn full(rt: &HostRuntime) -> Result<Sessions<u16>, Fail> {
        let mut sessions = Sessions::new(rt.alloc())?;
        for number in 0..256u16 {
            if sessions.start(token(rt, number)?, number).is_err() {
                break;
            }
        }
        Ok(sessions)
    }

    #[test]
    fn the_session_used_longest_ago_goes(rt: HostRuntime) -> Result<(), Fail> {
        let mut sessions = full(&rt)?;
        assert!(rt; sessions.touch(&token(&rt, 0)?));
        assert!(rt; !sessions.touch(&token(&rt, 300)?));
        // looking at a session doesn't use it
        assert!(rt; sessions.names(&token(&rt, 1)?));
        assert_eq!(rt; sessions.peek(&token(&rt, 1)?).copied(), Some(1));
        assert!(rt; sessions.start(token(&rt, 256)?, 256).is_ok());
        assert_eq!(rt; sessions.count(), 256);
        assert!(rt; sessions.names(&token(&rt, 0)?));
        assert!(rt; !sessions.names(&token(&rt, 1)?));
        Ok(())
    }

    #[test]
    fn a_session_takes_the_place_of_one(rt: HostRuntime) -> Result<(), Fail> {
        let mut sessions = full(&rt)?;
        assert!(rt; sessions.start(token(&rt, 7)?, 1007).is_ok());
        assert_eq!(rt; sessions.count(), 256);
        assert_eq!(rt; sessions.change(&token(&rt, 7)?, 2007), Ok(1007));
        assert_eq!(rt; sessions.change(&token(&rt, 300)?, 1), Err(1));
        assert_eq!(rt; sessions.end(&token(&rt, 7)?), Some(2007));
        assert_eq!(rt; sessions.end(&token(&rt, 7)?), None);
        assert_eq!(rt; sessions.count(), 255);
        sessions.end_all();
        assert_eq!(rt; sessions.count(), 0);
        Ok(())
    }
}
